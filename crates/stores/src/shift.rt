// Adding an item of a store's own parts behind fewer items: it moves down, over what is no longer in use.
#![tactic(auto, unfolding(crate::specs::Written::bytes_of, crate::specs::Written::rows_of))]

ghost use Rattle.std.specs.Prelude.{true, ◌≡◌, ◌+◌, ◌*◌, ◌≤◌, length};
ghost use Rattle.cells.specs.Part.{put};
ghost use Rattle.log_batch.specs.Lent.{item_of, ValueWithin, BytesWithin, RowsWithin};
ghost use Rattle.stores.specs.Written.{key_bytes, bytes_of, rows_of, count_of, ValueBehind, BytesBehind, RowsBehind, Behind, Lent};
ghost use Rattle.stores.specs.Stores.{area, Stored, has_room, Added};

use crate::Store;
use crate::row::{ITEM_BYTES, write_row};
use log_batch::item::{KeyValue, LogItem, LogItemContent};
use pipe_log::ENTRY_WIDTH;

// Moves a key, and its value behind it, down to place `to`.
fn move_key(bytes: &mut [u8], to: usize, kv: KeyValue)
    requires key_len_in_bounds { (kv.key_at + kv.key_len ≤ length bytes.old) × ValueWithin kv.value (length bytes.old) }
    requires to_bound { (to ≤ kv.key_at) × ValueBehind kv.value (to + kv.key_len) }
    ensures { bytes.new ≡ put bytes.old to (key_bytes kv bytes.old) }
{
    cells::shift(bytes, kv.key_at, to, kv.key_len);
    let Some(value) = kv.value else {
        return;
    };
    cells::shift(bytes, value.at, to + kv.key_len, value.len);
}

// Moves an item's bytes, if it has any, down to place `to`.
pub fn move_bytes(bytes: &mut [u8], to: usize, content: LogItemContent)
    requires bytes_within { BytesWithin content (length bytes.old) }
    requires bytes_behind { BytesBehind content to }
    ensures { bytes.new ≡ put bytes.old to (bytes_of content bytes.old) }
{
    match content {
        LogItemContent::EntryIndexes(_) | LogItemContent::Command(_) => {}
        LogItemContent::Kv(kv) => move_key(bytes, to, kv),
    }
}

// Moves an item's rows of entries, if it has any, down to row `row`, and answers the row behind them.
pub fn move_rows(entries: &mut [u64], row: usize, content: LogItemContent) -> usize
    requires rows_within { RowsWithin content (length entries.old) }
    requires rows_behind { RowsBehind content row }
    requires content_in_bounds { (row + count_of content) * 8 ≤ length entries.old }
    ensures entries_after { entries.new ≡ put entries.old (row * 8) (rows_of content entries.old) }
    ensures value { result ≡ row + count_of content }
{
    match content {
        LogItemContent::EntryIndexes(list) => {
            cells::shift(
                entries,
                list.at * ENTRY_WIDTH,
                row * ENTRY_WIDTH,
                list.count * ENTRY_WIDTH,
            );
            row + list.count
        }
        LogItemContent::Command(_) | LogItemContent::Kv(_) => row,
    }
}

// Adds an item whose places lie behind those of the store.
pub fn put_down(
    store: Store,
    items: &mut [u64],
    entries: &mut [u64],
    bytes: &mut [u8],
    item: LogItem,
) -> Store
    requires stored { Stored store (area items.old entries.old bytes.old) }
    requires lent { Lent item (length entries.old) (length bytes.old) }
    requires entries_value { has_room (count_of item.content) store (length items.old) (length entries.old) ≡ true }
    requires behind { Behind item.content store.entries (store.items * 64) }
    ensures { Added store (area items.old entries.old bytes.old) (item_of item entries.old bytes.old) result (area items.new entries.new bytes.new) }
{
    write_row(items, store.items, item, store.entries);
    let end = move_rows(entries, store.entries, item.content);
    move_bytes(bytes, store.items * ITEM_BYTES, item.content);
    Store {
        items: store.items + 1,
        entries: end,
    }
}
