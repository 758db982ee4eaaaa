// How many tombstones there are among the items of parts that finish.
#![tactic(auto, unfolding(rules::specs::Items::is_tombstone, log_batch::specs::Lent::content_of, log_batch::specs::Lent::key_content, log_batch::specs::Lent::key_change, log_batch::specs::Lent::change_of))]

ghost use Rattle.std.specs.Prelude.{List, ◌≡◌, ℕ, ◌+◌, ◌≤◌, ◌<◌, length, drop};
ghost use Rattle.rules.specs.Items.{is_tombstone};
ghost use Rattle.rules_by_group.specs.Stage.{tombs_in, finished_tombs};
ghost use Rattle.log_batch.specs.Lent.{content_of};
ghost use Rattle.stores.specs.Tags.{tagged_in, items_with, StoredTagged};
ghost use Rattle.room.specs.Layout.{waiting_of, tagged, RoomWf};
ghost use Rattle.parts.specs.Finals.{tombs_of, finished_in};

use crate::endings::find_finishing;
use crate::items::items_in;
use crate::walks::{group_at, next_cell};
use log_batch::item::{LogItemContent, OpType};
use stores::TaggedStore;
use stores::read::item_at;

// Del, a reserved one too, Clean and Compact are tombstones.
pub fn is_tombstone(content: LogItemContent) -> bool
    ensures { (es bs : List ℕ) → result ≡ is_tombstone (content_of content es bs) }
{
    match content {
        LogItemContent::EntryIndexes(_) => false,
        LogItemContent::Command(_) => true,
        LogItemContent::Kv(kv) => matches!(kv.op_type, OpType::Del),
    }
}

// The count so far, with item j of a store if it has the tag and is a tombstone.
fn count_at(count: usize, items: &TaggedStore, tag: u64, j: usize) -> usize
    requires stored { StoredTagged items.now }
    requires j_bound { (j < items.now.store.counts.items) × (items.now.store.counts.items ≤ 128) }
    requires count_le_j { count ≤ j }
    ensures value { result + length (tombs_of (items_with tag (drop (j + 1) (tagged_in items.now)))) ≡ count + length (tombs_of (items_with tag (drop j (tagged_in items.now)))) }
    ensures upper_bound { result ≤ j + 1 }
{
    if items.tags[j] != tag {
        return count;
    }
    let item = item_at(&items.store, j);
    if is_tombstone(item.content) {
        count + 1
    } else {
        count
    }
}

// How many items of a store have the tag and are tombstones.
fn count_tag(items: &TaggedStore, tag: u64) -> usize
    requires stored { StoredTagged items.now }
    requires items_bound { items.now.store.counts.items ≤ 128 }
    ensures value { result ≡ length (tombs_of (items_with tag (tagged_in items.now))) }
    ensures upper_bound { result ≤ 128 }
{
    let mut count = 0;
    for j in 0..items.store.counts.items {
        count = count_at(count, items, tag, j);
    }
    count
}

// How many items of a room have the tag and are tombstones.
fn count_part(ws: &[u64], vs: &[u8], tag: u64) -> usize
    requires { RoomWf 16 ws.now vs.now }
    ensures value { result ≡ length (tombs_of (items_with tag (tagged ws.now vs.now))) }
    ensures upper_bound { result ≤ 128 }
{
    count_tag(&items_in(ws, vs), tag)
}

// How many tombstones there are among the items of a group that finish.
#[tactic(auto, using(crate::proofs::FinalWays::group_none, crate::proofs::FinalWays::group_some))]
fn count_group(ws: &[u64], vs: &[u8], us: &[u64], ds: &[u8], group: u64) -> usize
    requires room_wf { RoomWf 16 ws.now vs.now }
    requires room_wf_2 { RoomWf 16 us.now ds.now }
    ensures value { result ≡ length (tombs_in (finished_in group ws.now vs.now us.now ds.now)) }
    ensures upper_bound { result ≤ 256 }
{
    match find_finishing(ws, us, group) {
        None => 0,
        Some(ending) => count_part(ws, vs, ending.older) + count_part(us, ds, ending.newer),
    }
}

// How many tombstones there are among the items that finish.
#[tactic(auto, using(crate::proofs::WalkWays::fewer))]
pub fn count_finals(ws: &[u64], vs: &[u8], us: &[u64], ds: &[u8]) -> usize
    requires room_wf { RoomWf 16 ws.now vs.now }
    requires room_wf_2 { RoomWf 16 us.now ds.now }
    ensures value { result ≡ length (finished_tombs (waiting_of us.now ds.now) (waiting_of ws.now vs.now)) }
    ensures upper_bound { result ≤ 4096 }
{
    let mut count = 0;
    let mut bound = None;
    while let Some(k) = next_cell(us, bound) {
        let group = group_at(us, k);
        count += count_group(ws, vs, us, ds, group);
        bound = Some(group);
    }
    count
}
