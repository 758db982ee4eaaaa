// The newer tombstones of a group, carried out on the work table in order.
ghost use Rattle.std.specs.Prelude.{true, List, [], ◌≡◌, ◌≤◌, ◌<◌, length};
ghost use Rattle.rules.specs.Items.{is_tombstone};
ghost use Rattle.rules_by_group.specs.Group.{tombed};
ghost use Rattle.rules_by_group.specs.Kept.{all_tombstones};
ghost use Rattle.rules_by_group.specs.Kept.{Within};
ghost use Rattle.log_batch.specs.Lent.{item_of, content_of};
ghost use Rattle.stores.specs.Stores.{area_in, store_items, Stored};
ghost use Rattle.stores.specs.Written.{Lent};
ghost use Rattle.worktable.specs.Work.{work_in, Wf};
ghost use Rattle.worktable.specs.Calls.{Becomes};
ghost use Rattle.staging.specs.TombLaws.{buried};

use deeds::{deed_of, key_in, rows_in, value_in};
use log_batch::Call;
use log_batch::item::LogItem;
use stores::LentStore;
use stores::read::item_at;

// Carries out a tombstone, which has no entries, if it is one of the group.
#[tactic(auto, using(crate::proofs::TombWays::buried_becomes, crate::proofs::TombWays::buried_stays))]
fn bury_item(p: &mut [u64], b: &mut [u8], group: u64, item: LogItem, entries: &[u64], bytes: &[u8])
    requires wf { Wf p.old b.old }
    requires within { Within 320 144 (work_in p.old b.old) }
    requires lent { Lent item (length entries.now) (length bytes.now) }
    requires bytes_value { is_tombstone (content_of item.content entries.now bytes.now) ≡ true }
    ensures { Becomes (buried group (item_of item entries.now bytes.now) (work_in p.old b.old)) p.new b.new }
{
    if item.raft_group_id != group {
        return;
    }
    let content = item.content;
    let deed = deed_of(Call::ReplayAppend, content, entries, bytes);
    let rows = rows_in(content, entries);
    let key = key_in(content, bytes);
    let value = value_in(content, bytes);
    worktable::act(p, b, deed, rows, key, value);
}

// Carries out the tombstones of a group, among those of a store.
#[tactic(auto, using(crate::proofs::TombWays::buried_all))]
pub fn bury(p: &mut [u64], b: &mut [u8], group: u64, store: &LentStore)
    requires wf { Wf p.old b.old }
    requires within { Within 320 144 (work_in p.old b.old) }
    requires stored { Stored store.now.counts (area_in store.now.parts) }
    requires tombstones { all_tombstones (store_items store.now.counts (area_in store.now.parts)) ≡ true }
    ensures { Becomes (tombed group (store_items store.now.counts (area_in store.now.parts)) (work_in p.old b.old)) p.new b.new }
{
    for j in 0..store.counts.items {
        let item = item_at(store, j);
        bury_item(p, b, group, item, store.parts.entries, store.parts.bytes);
    }
}
