// The tombstones among the items of parts that finish, kept behind those of both contexts.
ghost use Rattle.std.specs.Prelude.{◌≡◌, ◌+◌, ◌≤◌, ◌<◌, length, get_or, drop};
ghost use Rattle.rules_by_group.specs.Stage.{tombs_in, finished_tombs};
ghost use Rattle.stores.specs.Tags.{tagged_in, items_with, StoredTagged};
ghost use Rattle.lists.specs.Rest.{Wf};
ghost use Rattle.lists.specs.Calls.{TombstonesAdded};
ghost use Rattle.room.specs.Layout.{waiting_of, tagged, RoomWf};
ghost use Rattle.parts.specs.Finals.{tombs_of, finished_in, Keeping};

use crate::endings::find_finishing;
use crate::finals::is_tombstone;
use crate::items::items_in;
use crate::walks::{group_at, next_cell};
use stores::TaggedStore;
use stores::read::item_at;

// Keeps item j of a store, if it has the tag and is a tombstone.
#[tactic(auto, using(crate::proofs::KeepWays::keep_past))]
fn keep_at(ys: &mut [u64], cs: &mut [u8], items: &TaggedStore, tag: u64, j: usize)
    requires wf { Wf ys.old cs.old }
    requires stored { StoredTagged items.now }
    requires j_bound { j < items.now.store.counts.items }
    requires room { get_or ys.old 1 0 + length (tombs_of (items_with tag (drop j (tagged_in items.now)))) ≤ 64 }
    ensures { Keeping (items_with tag (drop j (tagged_in items.now))) (items_with tag (drop (j + 1) (tagged_in items.now))) ys.old cs.old ys.new cs.new }
{
    if items.tags[j] != tag {
        return;
    }
    let item = item_at(&items.store, j);
    if is_tombstone(item.content) {
        let parts = items.store.parts;
        lists::add_tombstone(ys, cs, item, parts.entries, parts.bytes);
    }
}

// Keeps the items of a store that have the tag and are tombstones.
#[tactic(auto, using(crate::proofs::KeepWays::keeping_none))]
fn keep_tag(ys: &mut [u64], cs: &mut [u8], items: &TaggedStore, tag: u64)
    requires wf { Wf ys.old cs.old }
    requires stored { StoredTagged items.now }
    requires room { get_or ys.old 1 0 + length (tombs_of (items_with tag (tagged_in items.now))) ≤ 64 }
    ensures { TombstonesAdded (tombs_of (items_with tag (tagged_in items.now))) ys.old cs.old ys.new cs.new }
{
    for j in 0..items.store.counts.items {
        keep_at(ys, cs, items, tag, j);
    }
}

// Keeps the items of a room that have the tag and are tombstones.
fn keep_part(ys: &mut [u64], cs: &mut [u8], ws: &[u64], vs: &[u8], tag: u64)
    requires wf { Wf ys.old cs.old }
    requires room_wf { RoomWf 16 ws.now vs.now }
    requires vs_bound { get_or ys.old 1 0 + length (tombs_of (items_with tag (tagged ws.now vs.now))) ≤ 64 }
    ensures { TombstonesAdded (tombs_of (items_with tag (tagged ws.now vs.now))) ys.old cs.old ys.new cs.new }
{
    keep_tag(ys, cs, &items_in(ws, vs), tag);
}

// Keeps the tombstones among the items of a group that finish.
#[tactic(auto, using(crate::proofs::KeepWays::kept_none))]
fn keep_group(
    ys: &mut [u64],
    cs: &mut [u8],
    ws: &[u64],
    vs: &[u8],
    us: &[u64],
    ds: &[u8],
    group: u64,
)
    requires wf { Wf ys.old cs.old }
    requires room_wf { RoomWf 16 ws.now vs.now }
    requires room_wf_2 { RoomWf 16 us.now ds.now }
    requires ds_bound { get_or ys.old 1 0 + length (tombs_in (finished_in group ws.now vs.now us.now ds.now)) ≤ 64 }
    ensures { TombstonesAdded (tombs_in (finished_in group ws.now vs.now us.now ds.now)) ys.old cs.old ys.new cs.new }
{
    if let Some(ending) = find_finishing(ws, us, group) {
        keep_part(ys, cs, ws, vs, ending.older);
        keep_part(ys, cs, us, ds, ending.newer);
    }
}

// Keeps the tombstones among the items that finish, groups ascending.
#[tactic(auto, using(crate::proofs::WalkWays::fewer, crate::proofs::KeepWays::keeping_start, crate::proofs::KeepWays::kept_more))]
pub fn keep_finals(ys: &mut [u64], cs: &mut [u8], ws: &[u64], vs: &[u8], us: &[u64], ds: &[u8])
    requires wf { Wf ys.old cs.old }
    requires room_wf { RoomWf 16 ws.now vs.now }
    requires room_wf_2 { RoomWf 16 us.now ds.now }
    requires vs_bound { get_or ys.old 1 0 + length (finished_tombs (waiting_of us.now ds.now) (waiting_of ws.now vs.now)) ≤ 64 }
    ensures { TombstonesAdded (finished_tombs (waiting_of us.now ds.now) (waiting_of ws.now vs.now)) ys.old cs.old ys.new cs.new }
{
    let mut bound = None;
    while let Some(k) = next_cell(us, bound) {
        let group = group_at(us, k);
        keep_group(ys, cs, ws, vs, us, ds, group);
        bound = Some(group);
    }
}
