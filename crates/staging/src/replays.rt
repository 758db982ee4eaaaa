// The items of a finished part, replayed on the work table in order.
ghost use Rattle.std.specs.Prelude.{[], ◌∷◌, ◌≡◌, ◌+◌, ◌≤◌, ◌<◌, length, drop};
ghost use Rattle.rules_by_group.specs.Group.{replayed_items};
ghost use Rattle.log_batch.specs.Lent.{item_of};
ghost use Rattle.log_batch.specs.OpenLaws.{Bare};
ghost use Rattle.stores.specs.Tags.{tagged_in, items_with, StoredTagged};
ghost use Rattle.stores.specs.Written.{Lent};
ghost use Rattle.room.specs.Layout.{tagged, RoomWf};
ghost use Rattle.worktable.specs.Work.{work_in, Wf};
ghost use Rattle.worktable.specs.Calls.{Becomes};
ghost use Rattle.staging.specs.Replays.{replayed, Replayable, Replaying};

use deeds::{deed_of, key_in, rows_in, value_in};
use log_batch::Call;
use log_batch::item::LogItem;
use parts::items_in;
use stores::TaggedStore;
use stores::read::item_at;

// Replays an item, for whose entries and key there is room.
#[tactic(auto, using(crate::proofs::ReplayWays::replayed_becomes))]
fn replay_item(p: &mut [u64], b: &mut [u8], item: LogItem, entries: &[u64], bytes: &[u8])
    requires wf { Wf p.old b.old }
    requires lent { Lent item (length entries.now) (length bytes.now) × Bare item.content }
    requires replayable { Replayable (item_of item entries.now bytes.now ∷ []) (work_in p.old b.old) }
    ensures { Becomes (replayed (item_of item entries.now bytes.now) (work_in p.old b.old)) p.new b.new }
{
    let content = item.content;
    let deed = deed_of(Call::ReplayRewrite, content, entries, bytes);
    let rows = rows_in(content, entries);
    let key = key_in(content, bytes);
    let value = value_in(content, bytes);
    worktable::act(p, b, deed, rows, key, value);
}

// Replays item j of a store, if it has the tag.
fn replay_at(p: &mut [u64], b: &mut [u8], items: &TaggedStore, tag: u64, j: usize)
    requires wf { Wf p.old b.old }
    requires stored { StoredTagged items.now }
    requires j_bound { j < items.now.store.counts.items }
    requires replayable { Replayable (items_with tag (drop j (tagged_in items.now))) (work_in p.old b.old) }
    ensures { Replaying (items_with tag (drop j (tagged_in items.now))) (work_in p.old b.old) (items_with tag (drop (j + 1) (tagged_in items.now))) p.new b.new }
{
    if items.tags[j] != tag {
        return;
    }
    let item = item_at(&items.store, j);
    let parts = items.store.parts;
    replay_item(p, b, item, parts.entries, parts.bytes);
}

// Replays the items of a store that have the tag.
#[tactic(auto, using(crate::proofs::ReplayWays::replaying_none, crate::proofs::ReplayWays::replaying_then, crate::proofs::ReplayWays::all_replayed))]
fn replay_tag(p: &mut [u64], b: &mut [u8], items: &TaggedStore, tag: u64)
    requires wf { Wf p.old b.old }
    requires stored { StoredTagged items.now }
    requires replayable { Replayable (items_with tag (tagged_in items.now)) (work_in p.old b.old) }
    ensures { Becomes (replayed_items (items_with tag (tagged_in items.now)) (work_in p.old b.old)) p.new b.new }
{
    for j in 0..items.store.counts.items {
        replay_at(p, b, items, tag, j);
    }
}

// Replays the items of a room that have the tag.
pub fn replay_part(p: &mut [u64], b: &mut [u8], ws: &[u64], vs: &[u8], tag: u64)
    requires wf { Wf p.old b.old }
    requires room_wf { RoomWf 16 ws.now vs.now }
    requires replayable { Replayable (items_with tag (tagged ws.now vs.now)) (work_in p.old b.old) }
    ensures { Becomes (replayed_items (items_with tag (tagged ws.now vs.now)) (work_in p.old b.old)) p.new b.new }
{
    replay_tag(p, b, &items_in(ws, vs), tag);
}
