// One number after the other: a group that is not staged yet is worked, and its table put into a spare stretch.
ghost use Rattle.std.specs.Prelude.{true, List, [], ◌∷◌, ◌≡◌, ℕ, ◌≤◌, ◌<◌, length, drop};
ghost use Rattle.std.specs.Prelude.{Option};
ghost use Rattle.rules.specs.Causes.{Result, Ok};
ghost use Rattle.rules.specs.Table.{Table};
ghost use Rattle.stretch.specs.Stretch.{is_used};
ghost use Rattle.groups.specs.Area.{Found};
ghost use Rattle.worktable.specs.Work.{work_in, Wf};
ghost use Rattle.worktable.specs.Calls.{Ends};
ghost use Rattle.contexts.specs.Contexts.{context_of};
ghost use Rattle.staging.specs.Staging.{no_flags, Ready, Staging};
ghost use Rattle.staging.specs.Modes.{group_by, Given, number_at, firsts};

use crate::Flags;
use crate::numbers::{PLACES, number_at};
use crate::work::work;
use groups::{SPARES_AT, Slot};
use pipe_log::Cause;
use worktable::{Mode, WORK_AT};

// Looks for a group among those that are staged.
fn find_staged(xs: &[u64], group: u64) -> Slot
    requires { 14064 ≤ length xs.now }
    ensures { Found group (drop 4688 xs.now) result }
{
    groups::find(&xs[SPARES_AT..], group)
}

// Puts the work table into spare stretch k, if it is within the limits.
#[tactic(auto, using(crate::proofs::StageWays::long_inside, crate::proofs::StageWays::lent_head))]
fn put_at(xs: &mut [u64], bs: &mut [u8], k: usize, group: u64, flags: Flags) -> Flags
    requires ready { Ready xs.old bs.old }
    requires found { Found group (drop 4688 xs.old) (Slot.Free k) }
    requires xs_len { (length xs.old ≡ 17231) × (length bs.old ≡ 38912) }
    requires wf { Wf (drop 13509 xs.old) (drop 28672 bs.old) × (is_used (drop 13509 xs.old) ≡ true) }
    ensures { (at : ℕ → Result (Option Table)) → at group ≡ Ok (work_in (drop 13509 xs.old) (drop 28672 bs.old)) → Staging at (group ∷ []) flags xs.old bs.old result xs.new bs.new }
{
    if !worktable::fits(&xs[WORK_AT..]) {
        return Flags {
            passed: true,
            ..flags
        };
    }
    worktable::unload(xs, bs, k, group);
    flags
}

// Takes the work table, with which the work on a group that is not staged ended, into the staged groups. Where no spare stretch is free,
// a table is a ninth group.
#[tactic(auto, using(crate::proofs::StageWays::long_inside, crate::proofs::StageWays::lent_head))]
fn settle(
    xs: &mut [u64],
    bs: &mut [u8],
    slot: Slot,
    group: u64,
    outcome: Result<(), Cause>,
    flags: Flags,
) -> Flags
    requires ready { Ready xs.old bs.old }
    requires found { Found group (drop 4688 xs.old) slot }
    requires not_staged { (k : ℕ) → slot ≡ Slot.At k → ⊥ }
    requires xs_len { (length xs.old ≡ 17231) × (length bs.old ≡ 38912) }
    requires wf { Wf (drop 13509 xs.old) (drop 28672 bs.old) }
    ensures { (at : ℕ → Result (Option Table)) → Ends (at group) outcome (drop 13509 xs.old) (drop 28672 bs.old) → Staging at (group ∷ []) flags xs.old bs.old result xs.new bs.new }
{
    if outcome.is_err() {
        return Flags {
            clashed: true,
            ..flags
        };
    }
    if !worktable::is_there(&xs[WORK_AT..]) {
        return flags;
    }
    match slot {
        Slot::Free(k) => put_at(xs, bs, k, group, flags),
        Slot::At(_) | Slot::Full => Flags {
            passed: true,
            ..flags
        },
    }
}

// Stages group `group`, unless it is staged already.
pub fn stage_one(
    xs: &mut [u64],
    bs: &mut [u8],
    ys: &[u64],
    cs: &[u8],
    mode: Mode,
    group: u64,
    flags: Flags,
) -> Flags
    requires given { Given mode xs.old bs.old ys.now cs.now }
    requires ready { Ready xs.old bs.old }
    ensures { Staging (group_by mode (context_of ys.now cs.now) (context_of xs.old bs.old)) (group ∷ []) flags xs.old bs.old result xs.new bs.new }
{
    match find_staged(xs, group) {
        Slot::At(_) => flags,
        slot => {
            let outcome = work(xs, bs, ys, cs, group, mode);
            settle(xs, bs, slot, group, outcome, flags)
        }
    }
}

// Stages the number of place i, if it has one.
fn turn(
    xs: &mut [u64],
    bs: &mut [u8],
    ys: &[u64],
    cs: &[u8],
    mode: Mode,
    i: usize,
    flags: Flags,
) -> Flags
    requires given { Given mode xs.old bs.old ys.now cs.now }
    requires ready { Ready xs.old bs.old }
    requires i_bound { i < 96 }
    ensures { Staging (group_by mode (context_of ys.now cs.now) (context_of xs.old bs.old)) (number_at xs.old ys.now i) flags xs.old bs.old result xs.new bs.new }
{
    match number_at(xs, ys, i) {
        Some(group) => stage_one(xs, bs, ys, cs, mode, group, flags),
        None => flags,
    }
}

// Stages the numbers of all places.
pub fn stage_all(xs: &mut [u64], bs: &mut [u8], ys: &[u64], cs: &[u8], mode: Mode) -> Flags
    requires given { Given mode xs.old bs.old ys.now cs.now }
    requires ready { Ready xs.old bs.old }
    ensures { Staging (group_by mode (context_of ys.now cs.now) (context_of xs.old bs.old)) (firsts (number_at xs.old ys.now) 96) no_flags xs.old bs.old result xs.new bs.new }
{
    let mut flags = Flags {
        clashed: false,
        passed: false,
    };
    for i in 0..PLACES {
        flags = turn(xs, bs, ys, cs, mode, i, flags);
    }
    flags
}
