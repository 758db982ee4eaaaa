// What an item does to its group, over the stretches of an area. `last`: no item follows whose refusal would undo it, so nothing
// is copied to go back to.
ghost use Rattle.maps.specs.Maps.{lookup, numbers, remove};
ghost use Rattle.rules.specs.Causes.{Ok};
ghost use Rattle.rules.specs.Table.{made};
ghost use Rattle.stretch.specs.Changes.{rule_of, Ready};
ghost use Rattle.groups.specs.Area.{groups_of, Found};
ghost use Rattle.groups.specs.Area as groups·area;
ghost use Rattle.groups.specs.Calls.{on_group, ChangedGroup, LeavesSlot};
ghost use Rattle.groups.specs.Undo.{Undoable, ReadyFor, ReadyToGo};
ghost use Rattle.batches.specs.Acts.{deed_on, SecuredUnless, Acted};
ghost use Rattle.deeds.specs.Deeds.{DeedReady};

use deeds::Deed;
use groups::Slot;
use pipe_log::Cause;
use stretch::Change;

// Makes sure that what a change overwrites at a slot can be gone back to, unless no item follows.
fn secure_unless(last: bool, xs: &mut [u64], bs: &mut [u8], slot: Slot, group: u64, change: Change)
    requires wf { groups·area.Wf xs.old bs.old }
    requires undoable { Undoable xs.old bs.old }
    requires found { Found group xs.old slot }
    ensures { SecuredUnless last (ReadyFor change slot) xs.old bs.old xs.new bs.new }
{
    if last {
        return;
    }
    groups::secure(xs, bs, slot, group, change);
}

// Makes sure that the group at a slot can be gone back to when it is removed, unless no item follows.
fn secure_removal_unless(last: bool, xs: &mut [u64], bs: &[u8], slot: Slot, group: u64)
    requires wf { groups·area.Wf xs.old bs.now }
    requires undoable { Undoable xs.old bs.now }
    requires found { Found group xs.old slot }
    ensures { SecuredUnless last (ReadyToGo slot) xs.old bs.now xs.new bs.now }
{
    if last {
        return;
    }
    groups::secure_removal(xs, bs, slot, group);
}

// Removes a group.
fn clean(xs: &mut [u64], bs: &mut [u8], group: u64, last: bool) -> Result<(), Cause>
    requires wf { groups·area.Wf xs.old bs.old }
    requires undoable { Undoable xs.old bs.old }
    ensures { Acted (λ m. Ok (remove numbers group m)) last xs.old bs.old result xs.new bs.new }
{
    let slot = groups::find(xs, group);
    secure_removal_unless(last, xs, bs, slot, group);
    groups::remove(xs, slot, group);
    Ok(())
}

// Changes a group, which is made if it is absent.
fn change_group(
    xs: &mut [u64],
    bs: &mut [u8],
    group: u64,
    change: Change,
    rows: &[u64],
    key: &[u8],
    value: &[u8],
    last: bool,
) -> Result<(), Cause>
    requires wf { groups·area.Wf xs.old bs.old }
    requires undoable { Undoable xs.old bs.old }
    requires ready { Ready change rows.now key.now value.now (made (lookup numbers group (groups_of xs.old bs.old))) }
    ensures { Acted (on_group (rule_of change rows.now key.now value.now) group) last xs.old bs.old result xs.new bs.new }
{
    let slot = groups::find(xs, group);
    secure_unless(last, xs, bs, slot, group, change);
    groups::apply(xs, bs, slot, group, change, rows, key, value)
}

// Carries out a deed on a group.
pub fn act(
    xs: &mut [u64],
    bs: &mut [u8],
    group: u64,
    deed: Deed,
    rows: &[u64],
    key: &[u8],
    value: &[u8],
    last: bool,
) -> Result<(), Cause>
    requires wf { groups·area.Wf xs.old bs.old }
    requires undoable { Undoable xs.old bs.old }
    requires deed_ready { DeedReady deed rows.now key.now value.now (made (lookup numbers group (groups_of xs.old bs.old))) }
    ensures { Acted (deed_on deed group rows.now key.now value.now) last xs.old bs.old result xs.new bs.new }
{
    match deed {
        Deed::Skip => Ok(()),
        Deed::Clean => clean(xs, bs, group, last),
        Deed::Change(change) => change_group(xs, bs, group, change, rows, key, value, last),
    }
}
