// The span of a finished atomic group (src/memtable.rs's `apply_rewrite_atomic_group`).
ghost use Rattle.std.specs.Prelude.{false, List, ◌≡◌, ℕ, ◌≤◌, ◌<◌, length};
ghost use Rattle.std.specs.Prelude.{Some};
ghost use Rattle.maps.specs.Maps.{lookup, numbers};
ghost use Rattle.rules.specs.Table.{Table};
ghost use Rattle.rules.specs.Context.{limited};
ghost use Rattle.rules.specs.Waiting.{set_span};
ghost use Rattle.groups.specs.Area.{groups_of, AtSlot};
ghost use Rattle.groups.specs.Area as groups·area;
ghost use Rattle.groups.specs.Calls.{on_group};
ghost use Rattle.groups.specs.Undo.{Undoable};
ghost use Rattle.contexts.specs.Contexts.{Formed};
ghost use Rattle.batches.specs.Acts.{Acted};
ghost use Rattle.writes.specs.Finishes.{SpannedGroup, Ended};
ghost use Rattle.writes.specs.SpanLaws.{making};

use groups::Slot;
use pipe_log::{Cause, Refusal};
use stretch::{Change, STRETCH};

// Sets the span of the group at stretch k.
fn span_at(xs: &mut [u64], k: usize, start: u64, end: u64) -> Result<(), Cause>
    requires in_bounds { 9376 ≤ length xs.old }
    requires k_bound { k < 8 }
    ensures { (g : ℕ) (bs : List ℕ) → groups·area.Wf xs.old bs → AtSlot g xs.old k → SpannedGroup g (record { start = start; end = end }) xs.old bs result xs.new }
{
    let a = k * STRETCH;
    let e = a + STRETCH;
    stretch::set_span(&mut xs[a..e], start, end)
}

// Sets the span of a group that is there.
fn span_held(xs: &mut [u64], group: u64, start: u64, end: u64) -> Result<(), Cause>
    requires { 9376 ≤ length xs.old }
    ensures { (bs : List ℕ) (t : Table) → groups·area.Wf xs.old bs → lookup numbers group (groups_of xs.old bs) ≡ Some t → SpannedGroup group (record { start = start; end = end }) xs.old bs result xs.new }
{
    let slot = groups::find(xs, group);
    match slot {
        Slot::At(k) => span_at(xs, k, start, end),
        Slot::Free(k) => Ok(()),
        Slot::Full => Ok(()),
    }
}

// Makes a group if it is absent.
fn make_group(xs: &mut [u64], bs: &mut [u8], group: u64) -> Result<(), Cause>
    requires wf { groups·area.Wf xs.old bs.old }
    requires undoable { Undoable xs.old bs.old }
    ensures { Acted (on_group making group) false xs.old bs.old result xs.new bs.new }
{
    let rows = [0u64; 1];
    let key = [0u8; 1];
    let slot = groups::find(xs, group);
    groups::secure(xs, bs, slot, group, Change::Make);
    groups::apply(xs, bs, slot, group, Change::Make, &rows, &key, &key)
}

// Sets the span of a group, which is made if it is absent; there may be no place for it, at the mark's place, or files go back.
pub fn set_span(
    xs: &mut [u64],
    bs: &mut [u8],
    group: u64,
    start: u64,
    end: u64,
    at: usize,
) -> Result<(), Refusal>
    requires formed { Formed xs.old bs.old }
    requires undoable { Undoable xs.old bs.old }
    ensures { Ended (set_span limited (Some at) group (record { start = start; end = end })) xs.old bs.old result xs.new bs.new }
{
    let made = make_group(xs, bs, group);
    if let Err(cause) = made {
        return Err(Refusal {
            cause,
            place: Some(at),
        });
    }
    span_held(xs, group, start, end)?;
    Ok(())
}
