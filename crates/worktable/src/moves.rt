// A group's stretch copied to the long stretch of an area, and the work table copied to a spare stretch: the header, the rows in use
// and their bytes.
ghost use Rattle.std.specs.Prelude.{true, ◌≡◌, ◌<◌, ◌≤◌, length};
ghost use Rattle.stretch.specs.Stretch.{is_used};
ghost use Rattle.stretch.specs.Stretch as held;
ghost use Rattle.groups.specs.Area.{stretch_at, bytes_at};
ghost use Rattle.worktable.specs.Moves.{Loaded, Fitting, Unloaded};

use crate::{KEYS_AT, WORK_AT, WORK_BYTES_AT};
use groups::SLOTS;
use kvs::rows::{ROW_BYTES, ROW_WIDTH};
use pipe_log::ENTRY_WIDTH;
use stretch::{BYTES, ENTRIES_AT, ENTRY_COUNT, KEY_COUNT, STRETCH};

// Copies stretch k, which is used, to the long stretch.
#[tactic(auto, using(crate::proofs::MoveWays::load_few))]
pub fn load(xs: &mut [u64], bs: &mut [u8], k: usize)
    requires k_bound { (k < 8) × (17231 ≤ length xs.old) × (38912 ≤ length bs.old) }
    requires wf { held.Wf (stretch_at k xs.old) (bytes_at k bs.old) × (is_used (stretch_at k xs.old) ≡ true) }
    ensures { Loaded k xs.old bs.old xs.new bs.new }
{
    let from = k * STRETCH;
    let entries = xs[from + ENTRY_COUNT] as usize;
    let keys = xs[from + KEY_COUNT] as usize;
    cells::shift(xs, from, WORK_AT, ENTRIES_AT + entries * ENTRY_WIDTH);
    cells::shift(
        xs,
        from + stretch::KEYS_AT,
        WORK_AT + KEYS_AT,
        keys * ROW_WIDTH,
    );
    cells::shift(bs, k * BYTES, WORK_BYTES_AT, keys * ROW_BYTES);
}

// Copies the work table, which fits, to spare stretch k, as that of a group.
#[tactic(auto, using(crate::proofs::MoveWays::unload_few))]
pub fn unload(xs: &mut [u64], bs: &mut [u8], k: usize, group: u64)
    requires k_bound { (k < 8) × (17231 ≤ length xs.old) × (38912 ≤ length bs.old) }
    requires fitting { Fitting xs.old bs.old }
    ensures { Unloaded k group xs.old bs.old xs.new bs.new }
{
    let to = (SLOTS + k) * STRETCH;
    let entries = xs[WORK_AT + ENTRY_COUNT] as usize;
    let keys = xs[WORK_AT + KEY_COUNT] as usize;
    cells::shift(xs, WORK_AT, to, ENTRIES_AT + entries * ENTRY_WIDTH);
    cells::shift(
        xs,
        WORK_AT + KEYS_AT,
        to + stretch::KEYS_AT,
        keys * ROW_WIDTH,
    );
    cells::shift(bs, WORK_BYTES_AT, (SLOTS + k) * BYTES, keys * ROW_BYTES);
    xs[to + 1] = group;
}
