// Lists of entries on a group that stands at a stretch, by plain numbers: the way of a batch that is one list.
ghost use Rattle.std.specs.Prelude.{[]};
ghost use Rattle.memtable.specs.Appends.{Lent};
ghost use Rattle.stretch.specs.Changes.{rule_of};
ghost use Rattle.groups.specs.Area.{Wf, AtSlot};
ghost use Rattle.groups.specs.Calls.{ChangedGroup};

use crate::Slot;
use pipe_log::Cause;
use stretch::{Change, KEYS_AT, STRETCH};

// Appends entries of the Append queue, live or replayed, to the group of stretch k. Its bytes stay.
pub fn append_at(
    xs: &mut [u64],
    bs: &[u8],
    k: usize,
    group: u64,
    first: u64,
    rows: &[u64],
    live: bool,
) -> Result<(), Cause>
    requires wf { Wf xs.old bs.now }
    requires at_slot { AtSlot group xs.old k }
    requires lent { Lent 0 first rows.now }
    ensures { ChangedGroup (rule_of (Change.Append first live) rows.now [] []) group (Slot.At k) xs.old bs.now result xs.new bs.now }
{
    let a = k * STRETCH;
    let e = a + STRETCH;
    stretch::append(&mut xs[a..e], KEYS_AT, first, rows, live)
}

// Rewrites entries of the group of stretch k. Its bytes stay.
pub fn rewrite_at(
    xs: &mut [u64],
    bs: &[u8],
    k: usize,
    group: u64,
    first: u64,
    rows: &[u64],
    gate: Option<u64>,
) -> Result<(), Cause>
    requires wf { Wf xs.old bs.now }
    requires at_slot { AtSlot group xs.old k }
    requires lent { Lent 1 first rows.now }
    ensures { ChangedGroup (rule_of (Change.Rewrite first gate) rows.now [] []) group (Slot.At k) xs.old bs.now result xs.new bs.now }
{
    let a = k * STRETCH;
    let e = a + STRETCH;
    stretch::rewrite(&mut xs[a..e], KEYS_AT, first, rows, gate)
}
