// A merge or join carried out: the groups are staged, and then the answer is known. What stages them takes the newer area's numbers and
// bytes, since what it says of stretches and rows is said of them.
ghost use Rattle.std.specs.Prelude.{true, ◌&&◌, ◌≡◌};
ghost use Rattle.rules.specs.Context.{is_context};
ghost use Rattle.lists.specs.Calls.{kind_as};
ghost use Rattle.rules.specs.Calls as rules·calls;
ghost use Rattle.contexts.specs.Contexts.{context_of, Wf, Answered, Called};
ghost use Rattle.staging.specs.Staging.{Ready};
ghost use Rattle.staging.specs.Modes.{call_by, rest_by, counts_fit, counts_of, Plain, Worked};
ghost use Rattle.merging.specs.Growth.{Taken};

use crate::ends::{clash_of, lists_fit};
use crate::growth::grow;
use crate::waits::carry_waiting;
use contexts::Area;
use lists::Kind;
use pipe_log::{Cause, LogQueue, Refusal};
use staging::{Flags, begin, seal, stage_all};
use worktable::Mode;

// Makes the staged groups the groups, and the lists those of both.
fn take_staged(xs: &mut [u64], bs: &mut [u8], ys: &[u64], cs: &[u8], mode: Mode)
    requires plain { Plain mode xs.old bs.old ys.now cs.now }
    requires ready { Ready xs.old bs.old }
    requires ys_value { counts_fit mode (counts_of xs.old) (counts_of ys.now) ≡ true }
    ensures { Taken (rest_by mode (context_of ys.now cs.now) (context_of xs.old bs.old)) xs.old bs.old xs.new bs.new }
{
    seal(xs);
    groups::undo(xs, bs);
    grow(xs, bs, ys, cs, mode);
}

// Ends a merge or join whose groups are staged: the refusal of a group goes before a limit that is passed.
fn finish(
    xs: &mut [u64],
    bs: &mut [u8],
    ys: &[u64],
    cs: &[u8],
    mode: Mode,
    flags: Flags,
) -> Result<(), Refusal>
    requires plain { Plain mode xs.old bs.old ys.now cs.now }
    requires ready { Ready xs.old bs.old }
    requires worked { Worked mode flags xs.old bs.old ys.now cs.now }
    ensures { Answered (call_by mode (context_of ys.now cs.now)) xs.old bs.old result xs.new bs.new }
{
    if flags.clashed {
        return Err(clash_of(mode).into());
    }
    if flags.passed || !lists_fit(mode, xs, ys) {
        return Err(Cause::LimitPassed.into());
    }
    take_staged(xs, bs, ys, cs, mode);
    Ok(())
}

// Carries out a merge or join of contexts whose kinds fit.
fn carry_out(
    xs: &mut [u64],
    bs: &mut [u8],
    ys: &[u64],
    cs: &[u8],
    mode: Mode,
) -> Result<(), Refusal>
    requires { Plain mode xs.old bs.old ys.now cs.now }
    ensures { Called (call_by mode (context_of ys.now cs.now)) xs.old bs.old result xs.new bs.new }
{
    begin(xs);
    let flags = stage_all(xs, bs, ys, cs, mode);
    finish(xs, bs, ys, cs, mode, flags)
}

// Whether the older area is a context of queue `first`, and the newer one of queue `second`.
fn kinds_are(older: Kind, first: LogQueue, newer: Kind, second: LogQueue) -> bool
    ensures { result ≡ is_context second (kind_as newer) && is_context first (kind_as older) }
{
    newer.is_context(second) && older.is_context(first)
}

// Merges a newer context into an older one of the same queue.
#[tactic(auto, using(crate::proofs::FinishWays::kind_there, crate::proofs::FinishWays::append_called, crate::proofs::FinishWays::rewrite_called))]
pub fn merge(xs: &mut [u64], bs: &mut [u8], newer: &Area) -> Result<(), Refusal>
    requires { Wf xs.old bs.old }
    ensures { Called (rules·calls.merge newer.now) xs.old bs.old result xs.new bs.new }
{
    let ys = newer.xs;
    let cs = newer.bs;
    let older = lists::kind_in(&xs[groups::NUMBERS..]);
    let its = lists::kind_in(&ys[groups::NUMBERS..]);
    if kinds_are(older, LogQueue::Append, its, LogQueue::Append) {
        return carry_out(xs, bs, ys, cs, Mode::Append);
    }
    if kinds_are(older, LogQueue::Rewrite, its, LogQueue::Rewrite) {
        return carry_waiting(xs, bs, ys, cs);
    }
    Err(Cause::WrongKind.into())
}

// Joins an Append context to a Rewrite context, which becomes the index.
#[tactic(auto, using(crate::proofs::FinishWays::kind_there, crate::proofs::FinishWays::join_called))]
pub fn join(xs: &mut [u64], bs: &mut [u8], newer: &Area) -> Result<(), Refusal>
    requires { Wf xs.old bs.old }
    ensures { Called (rules·calls.join newer.now) xs.old bs.old result xs.new bs.new }
{
    let ys = newer.xs;
    let cs = newer.bs;
    let older = lists::kind_in(&xs[groups::NUMBERS..]);
    let its = lists::kind_in(&ys[groups::NUMBERS..]);
    if !kinds_are(older, LogQueue::Rewrite, its, LogQueue::Append) {
        return Err(Cause::WrongKind.into());
    }
    carry_out(xs, bs, ys, cs, Mode::Join)
}
