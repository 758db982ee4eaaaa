// Adding all items of one store behind those of another.
ghost use Rattle.std.specs.Prelude.{true, ◌≡◌, ◌+◌, ◌*◌, ◌/◌, ◌≤◌, ◌<◌, length, drop};
ghost use Rattle.log_batch.specs.Batch.{item_in};
ghost use Rattle.stores.specs.Stores.{area, area_in, store_items, row_entries, Stored, has_room, Added, AddedAll};

use crate::add::add;
use crate::read::item_at;
use crate::{LentStore, Store};

// Adds item `j` of the store `from`.
fn add_item(
    store: Store,
    items: &mut [u64],
    entries: &mut [u64],
    bytes: &mut [u8],
    from: &LentStore,
    j: usize,
) -> Store
    requires stored { Stored store (area items.old entries.old bytes.old) }
    requires from_stored { Stored from.now.counts (area_in from.now.parts) }
    requires j_lt_from { j < from.now.counts.items }
    requires entries_value { has_room (row_entries (drop (j * 9) from.now.parts.items.now)) store (length items.old) (length entries.old) ≡ true }
    ensures { Added store (area items.old entries.old bytes.old) (item_in j from.now.parts) result (area items.new entries.new bytes.new) }
{
    let item = item_at(from, j);
    add(
        store,
        items,
        entries,
        bytes,
        item,
        from.parts.entries,
        from.parts.bytes,
    )
}

// Adds the items of the store `from`, for which there is room.
pub fn add_all(
    store: Store,
    items: &mut [u64],
    entries: &mut [u64],
    bytes: &mut [u8],
    from: &LentStore,
) -> Store
    requires stored { Stored store (area items.old entries.old bytes.old) }
    requires from_stored { Stored from.now.counts (area_in from.now.parts) }
    requires from_in_bounds { (store.items + from.now.counts.items ≤ length items.old / 9) × (store.entries + from.now.counts.entries ≤ length entries.old / 8) }
    ensures { AddedAll store (area items.old entries.old bytes.old) (store_items from.now.counts (area_in from.now.parts)) result (area items.new entries.new bytes.new) }
{
    let mut all = store;
    for j in 0..from.counts.items {
        all = add_item(all, items, entries, bytes, from, j);
    }
    all
}
