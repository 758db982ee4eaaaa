// Items with tags: an item is pushed with the tag of its waiting part, and a part that is finished or dropped is taken out.
ghost use Rattle.std.specs.Prelude.{◌/◌, ◌≤◌, ◌<◌, eqb, length, get_or};
ghost use Rattle.log_batch.specs.Lent.{item_of};
ghost use Rattle.stores.specs.Written.{Lent};
ghost use Rattle.stores.specs.Stores.{area, Stored};
ghost use Rattle.stores.specs.Tags.{PushingTagged, Movable, Moved, Keeping, TakenOut};

use crate::Store;
use crate::add::push;
use crate::shift::put_down;
use log_batch::LogBatch;
use log_batch::item::LogItem;
use log_batch::open::open_item;

// Pushes an item with its tag.
pub fn push_tagged(
    store: Store,
    items: &mut [u64],
    entries: &mut [u64],
    bytes: &mut [u8],
    tags: &mut [u64],
    tag: u64,
    item: LogItem,
    its_entries: &[u64],
    its_bytes: &[u8],
) -> Option<Store>
    requires stored { Stored store (area items.old entries.old bytes.old) }
    requires lent { Lent item (length its_entries.now) (length its_bytes.now) }
    requires in_bounds { length items.old / 9 ≤ length tags.old }
    ensures { PushingTagged store (area items.old entries.old bytes.old) tags.old tag (item_of item its_entries.now its_bytes.now) result (area items.new entries.new bytes.new) tags.new }
{
    let all = push(store, items, entries, bytes, item, its_entries, its_bytes)?;
    tags[store.items] = tag;
    Some(all)
}

// Adds item `j` of the parts behind the items that are left.
fn keep_item(
    left: Store,
    items: &mut [u64],
    entries: &mut [u64],
    bytes: &mut [u8],
    j: usize,
) -> Store
    requires stored { Stored left (area items.old entries.old bytes.old) }
    requires movable { Movable left j (area items.old entries.old bytes.old) }
    ensures { Moved left (area items.old entries.old bytes.old) j result (area items.new entries.new bytes.new) }
{
    let parts = LogBatch {
        items,
        entries,
        bytes,
    };
    let Ok(item) = open_item(&parts, j) else {
        unreachable!()
    };
    put_down(left, items, entries, bytes, item)
}

// The same with its tag, unless it has the tag that is taken out.
fn keep_other(
    left: Store,
    items: &mut [u64],
    entries: &mut [u64],
    bytes: &mut [u8],
    tags: &mut [u64],
    j: usize,
    tag: u64,
) -> Store
    requires stored { Stored left (area items.old entries.old bytes.old) }
    requires movable { Movable left j (area items.old entries.old bytes.old) }
    requires left_le_j { (left.items ≤ j) × (j < length tags.old) }
    ensures { Keeping (eqb (get_or tags.old j 0) tag) left (area items.old entries.old bytes.old) tags.old j result (area items.new entries.new bytes.new) tags.new }
{
    let its = tags[j];
    if its == tag {
        return left;
    }
    tags[left.items] = its;
    keep_item(left, items, entries, bytes, j)
}

// Takes out the items that have a tag. The others move down, in order and with their tags.
pub fn take_out(
    store: Store,
    items: &mut [u64],
    entries: &mut [u64],
    bytes: &mut [u8],
    tags: &mut [u64],
    tag: u64,
) -> Store
    requires stored { Stored store (area items.old entries.old bytes.old) }
    requires store_in_bounds { store.items ≤ length tags.old }
    ensures { TakenOut store (area items.old entries.old bytes.old) tags.old tag result (area items.new entries.new bytes.new) tags.new }
{
    let mut left = Store {
        items: 0,
        entries: 0,
    };
    for j in 0..store.items {
        left = keep_other(left, items, entries, bytes, tags, j, tag);
    }
    left
}
