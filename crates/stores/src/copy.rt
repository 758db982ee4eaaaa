// Copying a store to the front of other parts.
ghost use Rattle.stores.specs.Stores.{area, area_in, Stored, Fitting, Copied};

use crate::LentStore;
use crate::row::ITEM_BYTES;
use log_batch::open::ITEM_WIDTH;
use pipe_log::ENTRY_WIDTH;

// Copies the fronts in use. The store's counts serve for the copy.
pub fn copy(from: &LentStore, to_items: &mut [u64], to_entries: &mut [u64], to_bytes: &mut [u8])
    requires stored { Stored from.now.counts (area_in from.now.parts) }
    requires fitting { Fitting from.now.counts (area to_items.old to_entries.old to_bytes.old) }
    ensures { Copied from.now.counts (area_in from.now.parts) (area to_items.old to_entries.old to_bytes.old) (area to_items.new to_entries.new to_bytes.new) }
{
    let store = from.counts;
    let parts = from.parts;
    cells::copy_in(to_items, 0, &parts.items[..store.items * ITEM_WIDTH]);
    cells::copy_in(to_entries, 0, &parts.entries[..store.entries * ENTRY_WIDTH]);
    cells::copy_in(to_bytes, 0, &parts.bytes[..store.items * ITEM_BYTES]);
}
