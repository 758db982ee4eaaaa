// The end of a merge of two Rewrite contexts, in which parts may wait.
ghost use Rattle.std.specs.Prelude.{true, List, ◌≡◌, ℕ, ◌+◌, ◌≤◌, length, get_or, drop};
ghost use Rattle.cells.specs.Part.{part, put};
ghost use Rattle.rules.specs.Causes.{Ok};
ghost use Rattle.rules_by_group.specs.Stage.{waiting_after, finished_tombs, merged_rest, rest_fits};
ghost use Rattle.room.specs.Layout.{waiting_of, RoomWf};
ghost use Rattle.lists.specs.Rest as lists;
ghost use Rattle.contexts.specs.Contexts.{rest_at, context_of, Wf, Answered, Called};
ghost use Rattle.parts.specs.Takings.{PartsTaken};
ghost use Rattle.staging.specs.Staging.{Ready};
ghost use Rattle.staging.specs.Modes.{call_by, Given, Worked};
ghost use Rattle.merging.specs.Growth.{kept_behind, Grown, Waitable, RestBecomes, Taken};

use crate::ends::lists_fit;
use crate::growth::grow_merged;
use contexts::{WAITING_BYTES_FROM, WAITING_BYTES_TO, WAITING_FROM, WAITING_TO};
use lists::MAX_TOMBSTONES;
use parts::{count_finals, keep_finals, room_fits, take_parts};
use pipe_log::{Cause, Refusal};
use staging::{Flags, begin, copy_room, seal, stage_all};
use worktable::Mode;

// How many tombstones there are among the items that finish.
fn count_finished(xs: &[u64], bs: &[u8], ys: &[u64], cs: &[u8]) -> usize
    requires wf { Wf xs.now bs.now }
    requires wf_2 { Wf ys.now cs.now }
    ensures value { result ≡ length (finished_tombs (context_of ys.now cs.now).waiting (context_of xs.now bs.now).waiting) }
    ensures upper_bound { result ≤ 4096 }
{
    count_finals(
        &xs[WAITING_FROM..WAITING_TO],
        &bs[WAITING_BYTES_FROM..WAITING_BYTES_TO],
        &ys[WAITING_FROM..WAITING_TO],
        &cs[WAITING_BYTES_FROM..WAITING_BYTES_TO],
    )
}

// Whether the lists of both, with the tombstones that finish, and what waits in the room ws pass no limit.
#[tactic(auto, using(crate::proofs::WaitWays::over_lists, crate::proofs::WaitWays::over_finished, contexts::proofs::Lengths::area_numbers))]
fn rest_fits(xs: &[u64], bs: &[u8], ys: &[u64], cs: &[u8], ws: &[u64]) -> bool
    requires wf { Wf xs.now bs.now }
    requires wf_2 { Wf ys.now cs.now }
    requires ws_len { length ws.now ≡ 3490 }
    ensures { (vs : List ℕ) → RoomWf 16 ws.now vs → result ≡ rest_fits (merged_rest (context_of ys.now cs.now) (waiting_of ws.now vs) (context_of xs.now bs.now)) }
{
    if !lists_fit(Mode::Rewrite, xs, ys) {
        return false;
    }
    let at = groups::NUMBERS + lists::TOMBSTONES_AT;
    let listed = (xs[at] + ys[at]) as usize;
    if listed + count_finished(xs, bs, ys, cs) > MAX_TOMBSTONES {
        return false;
    }
    room_fits(ws)
}

// Keeps the tombstones among the items that finish behind those of both. The older room is copied first: it stands in the same area.
fn keep_finished(xs: &mut [u64], bs: &mut [u8], ys: &[u64], cs: &[u8])
    requires xs_len { (length xs.old ≡ 17231) × (length bs.old ≡ 38912) × (length ys.now ≡ 17231) × (length cs.now ≡ 38912) }
    requires wf { lists.Wf (drop 9376 xs.old) (drop 16384 bs.old) }
    requires room_wf { RoomWf 16 (part 10019 3490 xs.old) (part 20480 8192 bs.old) }
    requires room_wf_2 { RoomWf 16 (part 10019 3490 ys.now) (part 20480 8192 cs.now) }
    requires bs_bound { get_or (drop 9376 xs.old) 1 0 + length (finished_tombs (waiting_of (part 10019 3490 ys.now) (part 20480 8192 cs.now)) (waiting_of (part 10019 3490 xs.old) (part 20480 8192 bs.old))) ≤ 64 }
    ensures { Grown (kept_behind (finished_tombs (waiting_of (part 10019 3490 ys.now) (part 20480 8192 cs.now)) (waiting_of (part 10019 3490 xs.old) (part 20480 8192 bs.old))) xs.old bs.old) xs.old bs.old xs.new bs.new }
{
    let mut ws = [0u64; room::NUMBERS];
    let mut vs = [0u8; room::BYTES];
    copy_room(xs, bs, &mut ws, &mut vs);
    keep_finals(
        &mut xs[groups::NUMBERS..],
        &mut bs[groups::BYTES..],
        &ws,
        &vs,
        &ys[WAITING_FROM..WAITING_TO],
        &cs[WAITING_BYTES_FROM..WAITING_BYTES_TO],
    );
}

// Makes ws, vs the room of the waiting parts.
fn put_room(xs: &mut [u64], bs: &mut [u8], ws: &[u64], vs: &[u8])
    requires { (length xs.old ≡ 17231) × (length bs.old ≡ 38912) × (length ws.now ≡ 3490) × (length vs.now ≡ 8192) }
    ensures { (xs.new ≡ put xs.old 10019 ws.now) × (bs.new ≡ put bs.old 20480 vs.now) }
{
    cells::copy_in(xs, WAITING_FROM, ws);
    cells::copy_in(bs, WAITING_BYTES_FROM, vs);
}

// The lists of both, the tombstones that finish behind them, and what waits.
fn grow_waiting(xs: &mut [u64], bs: &mut [u8], ys: &[u64], cs: &[u8], ws: &[u64], vs: &[u8])
    requires { Waitable xs.old bs.old ys.now cs.now ws.now vs.now }
    ensures { RestBecomes (merged_rest (context_of ys.now cs.now) (waiting_of ws.now vs.now) (rest_at xs.old bs.old)) xs.old bs.old xs.new bs.new }
{
    grow_merged(xs, bs, ys, cs);
    keep_finished(xs, bs, ys, cs);
    put_room(xs, bs, ws, vs);
}

// Makes the staged groups the groups, and the rest that of both.
fn take_waiting(xs: &mut [u64], bs: &mut [u8], ys: &[u64], cs: &[u8], ws: &[u64], vs: &[u8])
    requires wf { Wf xs.old bs.old × Wf ys.now cs.now }
    requires ready { Ready xs.old bs.old }
    requires room_wf { RoomWf 16 ws.now vs.now }
    requires bs_value { rest_fits (merged_rest (context_of ys.now cs.now) (waiting_of ws.now vs.now) (context_of xs.old bs.old)) ≡ true }
    ensures { Taken (merged_rest (context_of ys.now cs.now) (waiting_of ws.now vs.now) (context_of xs.old bs.old)) xs.old bs.old xs.new bs.new }
{
    seal(xs);
    groups::undo(xs, bs);
    grow_waiting(xs, bs, ys, cs, ws, vs);
}

// Ends a merge after which the room ws, vs is what waits: the refusal of a group goes before a limit that is passed.
fn end_waiting(
    xs: &mut [u64],
    bs: &mut [u8],
    ys: &[u64],
    cs: &[u8],
    ws: &[u64],
    vs: &[u8],
    flags: Flags,
) -> Result<(), Refusal>
    requires given { Given Mode.Rewrite xs.old bs.old ys.now cs.now }
    requires ready { Ready xs.old bs.old }
    requires worked { Worked Mode.Rewrite flags xs.old bs.old ys.now cs.now }
    requires bs_value { waiting_after (context_of ys.now cs.now).waiting (context_of xs.old bs.old).waiting ≡ Ok (waiting_of ws.now vs.now) }
    requires room_wf { RoomWf 16 ws.now vs.now }
    ensures { Answered (call_by Mode.Rewrite (context_of ys.now cs.now)) xs.old bs.old result xs.new bs.new }
{
    if flags.clashed {
        return Err(Cause::FilesGoBack.into());
    }
    if flags.passed || !rest_fits(xs, bs, ys, cs, ws) {
        return Err(Cause::LimitPassed.into());
    }
    take_waiting(xs, bs, ys, cs, ws, vs);
    Ok(())
}

// Makes ws, vs the room of what waits after the merge, unless files go back.
fn accept_waiting(
    xs: &[u64],
    bs: &[u8],
    ys: &[u64],
    cs: &[u8],
    ws: &mut [u64],
    vs: &mut [u8],
) -> Result<(), Cause>
    requires wf { Wf xs.now bs.now }
    requires wf_2 { Wf ys.now cs.now }
    requires ws_len { (length ws.old ≡ 3490) × (length vs.old ≡ 8192) }
    ensures { PartsTaken (waiting_after (context_of ys.now cs.now).waiting (context_of xs.now bs.now).waiting) result ws.new vs.new }
{
    copy_room(xs, bs, ws, vs);
    take_parts(
        ws,
        vs,
        &ys[WAITING_FROM..WAITING_TO],
        &cs[WAITING_BYTES_FROM..WAITING_BYTES_TO],
    )
}

// Ends a merge of Rewrite contexts whose groups are staged. Files that go back go before all else.
fn finish_waiting(
    xs: &mut [u64],
    bs: &mut [u8],
    ys: &[u64],
    cs: &[u8],
    flags: Flags,
) -> Result<(), Refusal>
    requires given { Given Mode.Rewrite xs.old bs.old ys.now cs.now }
    requires ready { Ready xs.old bs.old }
    requires worked { Worked Mode.Rewrite flags xs.old bs.old ys.now cs.now }
    ensures { Answered (call_by Mode.Rewrite (context_of ys.now cs.now)) xs.old bs.old result xs.new bs.new }
{
    let mut ws = [0u64; room::NUMBERS];
    let mut vs = [0u8; room::BYTES];
    accept_waiting(xs, bs, ys, cs, &mut ws, &mut vs)?;
    end_waiting(xs, bs, ys, cs, &ws, &vs, flags)
}

// Carries out a merge of Rewrite contexts.
pub fn carry_waiting(xs: &mut [u64], bs: &mut [u8], ys: &[u64], cs: &[u8]) -> Result<(), Refusal>
    requires { Given Mode.Rewrite xs.old bs.old ys.now cs.now }
    ensures { Called (call_by Mode.Rewrite (context_of ys.now cs.now)) xs.old bs.old result xs.new bs.new }
{
    begin(xs);
    let flags = stage_all(xs, bs, ys, cs, Mode::Rewrite);
    finish_waiting(xs, bs, ys, cs, flags)
}
