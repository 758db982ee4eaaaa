// Adding an item behind the others of a store.
#![tactic(auto, unfolding(crate::specs::Written::value_bytes, crate::specs::Written::key_bytes, crate::specs::Written::bytes_of, crate::specs::Written::rows_of, crate::specs::Stores::has_room))]

ghost use Rattle.std.specs.Prelude.{true, ◌≡◌, ◌+◌, ◌*◌, ◌≤◌, length};
ghost use Rattle.cells.specs.Part.{put};
ghost use Rattle.log_batch.specs.Lent.{item_of, ValueWithin, BytesWithin, RowsWithin};
ghost use Rattle.stores.specs.Written.{key_bytes, bytes_of, rows_of, count_of, ValueShort, ContentShort, Lent};
ghost use Rattle.stores.specs.Stores.{area, Stored, has_room, Added, Pushing};

use crate::Store;
use crate::row::{ITEM_BYTES, write_row};
use log_batch::item::{KeyValue, LogItem, LogItemContent, bytes_of, entries_of};
use log_batch::open::ITEM_WIDTH;
use pipe_log::ENTRY_WIDTH;

// Copies a key, and its value behind it, to place `at`.
fn copy_key(bytes: &mut [u8], at: usize, kv: KeyValue, its_bytes: &[u8])
    requires at_in_bounds { at + 64 ≤ length bytes.old }
    requires key_len_in_bounds { (kv.key_at + kv.key_len ≤ length its_bytes.now) × ValueWithin kv.value (length its_bytes.now) }
    requires key_len_bound { (kv.key_len ≤ 32) × ValueShort kv.value }
    ensures { bytes.new ≡ put bytes.old at (key_bytes kv its_bytes.now) }
{
    cells::copy_in(bytes, at, bytes_of(its_bytes, kv.key_at, kv.key_len));
    let Some(value) = kv.value else {
        return;
    };
    cells::copy_in(
        bytes,
        at + kv.key_len,
        bytes_of(its_bytes, value.at, value.len),
    );
}

// Copies an item's bytes, if it has any, to place `at`.
pub fn copy_bytes(bytes: &mut [u8], at: usize, content: LogItemContent, its_bytes: &[u8])
    requires at_in_bounds { at + 64 ≤ length bytes.old }
    requires bytes_within { BytesWithin content (length its_bytes.now) }
    requires content_short { ContentShort content }
    ensures { bytes.new ≡ put bytes.old at (bytes_of content its_bytes.now) }
{
    match content {
        LogItemContent::EntryIndexes(_) | LogItemContent::Command(_) => {}
        LogItemContent::Kv(kv) => copy_key(bytes, at, kv, its_bytes),
    }
}

// Copies an item's rows of entries, if it has any, to row `row`, and answers the row behind them.
pub fn copy_rows(
    entries: &mut [u64],
    row: usize,
    content: LogItemContent,
    its_entries: &[u64],
) -> usize
    requires content_in_bounds { (row + count_of content) * 8 ≤ length entries.old }
    requires rows_within { RowsWithin content (length its_entries.now) }
    ensures entries_after { entries.new ≡ put entries.old (row * 8) (rows_of content its_entries.now) }
    ensures value { result ≡ row + count_of content }
{
    match content {
        LogItemContent::EntryIndexes(list) => {
            let its = entries_of(its_entries, list.at, list.count);
            cells::copy_in(entries, row * ENTRY_WIDTH, its);
            row + list.count
        }
        LogItemContent::Command(_) | LogItemContent::Kv(_) => row,
    }
}

// How many entries an item has.
pub fn count_of(content: LogItemContent) -> usize
    ensures { result ≡ count_of content }
{
    match content {
        LogItemContent::EntryIndexes(list) => list.count,
        LogItemContent::Command(_) | LogItemContent::Kv(_) => 0,
    }
}

// Whether an item has room in a store whose parts have so many numbers.
fn has_room(store: Store, content: LogItemContent, items: usize, entries: usize) -> bool
    requires { store.entries * 8 ≤ entries }
    ensures { result ≡ has_room (count_of content) store items entries }
{
    store.items < items / ITEM_WIDTH && count_of(content) <= entries / ENTRY_WIDTH - store.entries
}

// Copies an item behind the others of a store that has room for it.
pub fn add(
    store: Store,
    items: &mut [u64],
    entries: &mut [u64],
    bytes: &mut [u8],
    item: LogItem,
    its_entries: &[u64],
    its_bytes: &[u8],
) -> Store
    requires stored { Stored store (area items.old entries.old bytes.old) }
    requires lent { Lent item (length its_entries.now) (length its_bytes.now) }
    requires entries_value { has_room (count_of item.content) store (length items.old) (length entries.old) ≡ true }
    ensures { Added store (area items.old entries.old bytes.old) (item_of item its_entries.now its_bytes.now) result (area items.new entries.new bytes.new) }
{
    write_row(items, store.items, item, store.entries);
    let end = copy_rows(entries, store.entries, item.content, its_entries);
    copy_bytes(bytes, store.items * ITEM_BYTES, item.content, its_bytes);
    Store {
        items: store.items + 1,
        entries: end,
    }
}

// The same, or no room for it.
pub fn push(
    store: Store,
    items: &mut [u64],
    entries: &mut [u64],
    bytes: &mut [u8],
    item: LogItem,
    its_entries: &[u64],
    its_bytes: &[u8],
) -> Option<Store>
    requires stored { Stored store (area items.old entries.old bytes.old) }
    requires lent { Lent item (length its_entries.now) (length its_bytes.now) }
    ensures { Pushing store (area items.old entries.old bytes.old) (item_of item its_entries.now its_bytes.now) result (area items.new entries.new bytes.new) }
{
    if !has_room(store, item.content, items.len(), entries.len()) {
        return None;
    }
    Some(add(store, items, entries, bytes, item, its_entries, its_bytes))
}
