// Changes of a group: one of its stretch, or of a stretch that is made for it.
ghost use Rattle.std.specs.Prelude.{true, ◌≡◌, ◌<◌, ◌≤◌, ◌*◌, length, set};
ghost use Rattle.cells.specs.Part.{put};
ghost use Rattle.maps.specs.Maps.{lookup, numbers};
ghost use Rattle.rules.specs.Table.{made};
ghost use Rattle.stretch.specs.Stretch.{is_used, made_header, table_in};
ghost use Rattle.stretch.specs.Changes.{rule_of, Ready};
ghost use Rattle.groups.specs.Area.{stretch_at, bytes_at, groups_of, Wf, Found};
ghost use Rattle.groups.specs.Calls.{ChangedAt, ChangedGroup, RemovedGroup, LeavesStretch, LeavesSlot};

use crate::Slot;
use pipe_log::Cause;
use stretch::{BYTES, Change, KEYS_AT, STRETCH};

// Carries out a change on the group of stretch k.
fn apply_at(
    xs: &mut [u64],
    bs: &mut [u8],
    k: usize,
    change: Change,
    rows: &[u64],
    key: &[u8],
    value: &[u8],
) -> Result<(), Cause>
    requires wf { Wf xs.old bs.old }
    requires k_bound { (k < 8) × (is_used (stretch_at k xs.old) ≡ true) }
    requires ready { Ready change rows.now key.now value.now (table_in (stretch_at k xs.old) (bytes_at k bs.old)) }
    ensures changed_at { ChangedAt (rule_of change rows.now key.now value.now) k xs.old bs.old result xs.new bs.new }
    ensures leaves_stretch { LeavesStretch change k xs.old bs.old xs.new bs.new }
{
    let a = k * STRETCH;
    let e = a + STRETCH;
    let c = k * BYTES;
    let d = c + BYTES;
    stretch::apply(
        &mut xs[a..e],
        &mut bs[c..d],
        KEYS_AT,
        change,
        rows,
        key,
        value,
    )
}

// Makes stretch k that of a group with nothing in it.
#[tactic(auto, using(crate::proofs::Applying::made_back))]
fn make_at(xs: &mut [u64], k: usize, group: u64)
    requires { (k < 8) × (9376 ≤ length xs.old) }
    ensures { xs.new ≡ put xs.old (k * 586) (made_header group) }
{
    let a = k * STRETCH;
    let e = a + STRETCH;
    stretch::make(&mut xs[a..e], group);
}

// Frees stretch k.
pub fn free_at(xs: &mut [u64], k: usize)
    requires { (k < 8) × (9376 ≤ length xs.old) }
    ensures { xs.new ≡ set xs.old (k * 586) 0 }
{
    xs[k * STRETCH] = 0;
}

// Carries out a change on a group that is made at the free stretch k; where the change is refused the stretch is free again.
fn apply_made(
    xs: &mut [u64],
    bs: &mut [u8],
    k: usize,
    group: u64,
    change: Change,
    rows: &[u64],
    key: &[u8],
    value: &[u8],
) -> Result<(), Cause>
    requires wf { Wf xs.old bs.old }
    requires found { Found group xs.old (Slot.Free k) }
    requires ready { Ready change rows.now key.now value.now (made (lookup numbers group (groups_of xs.old bs.old))) }
    ensures changed_group { ChangedGroup (rule_of change rows.now key.now value.now) group (Slot.Free k) xs.old bs.old result xs.new bs.new }
    ensures leaves_slot { LeavesSlot change (Slot.Free k) xs.old bs.old result xs.new bs.new }
{
    make_at(xs, k, group);
    let answer = apply_at(xs, bs, k, change, rows, key, value);
    match answer {
        Ok(()) => Ok(()),
        Err(cause) => {
            free_at(xs, k);
            Err(cause)
        }
    }
}

// Carries out a change on a group, which is made if it is absent. The slot is the one where it was found.
pub fn apply(
    xs: &mut [u64],
    bs: &mut [u8],
    slot: Slot,
    group: u64,
    change: Change,
    rows: &[u64],
    key: &[u8],
    value: &[u8],
) -> Result<(), Cause>
    requires wf { Wf xs.old bs.old }
    requires found { Found group xs.old slot }
    requires ready { Ready change rows.now key.now value.now (made (lookup numbers group (groups_of xs.old bs.old))) }
    ensures changed_group { ChangedGroup (rule_of change rows.now key.now value.now) group slot xs.old bs.old result xs.new bs.new }
    ensures leaves_slot { LeavesSlot change slot xs.old bs.old result xs.new bs.new }
{
    match slot {
        Slot::At(k) => apply_at(xs, bs, k, change, rows, key, value),
        Slot::Free(k) => apply_made(xs, bs, k, group, change, rows, key, value),
        Slot::Full => Err(Cause::LimitPassed),
    }
}

// Removes a group; an absent one needs no place.
pub fn remove(xs: &mut [u64], slot: Slot, group: u64)
    requires in_bounds { 9376 ≤ length xs.old }
    requires found { Found group xs.old slot }
    ensures { (bs : _) → Wf xs.old bs → RemovedGroup group slot xs.old bs xs.new }
{
    match slot {
        Slot::At(k) => free_at(xs, k),
        Slot::Free(_) => {}
        Slot::Full => {}
    }
}
