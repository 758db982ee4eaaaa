// Rows of a store that stands in a room: its parts are lent one at a time.
ghost use Rattle.std.specs.Prelude.{◌≡◌, ◌+◌, ◌*◌, ◌≤◌, ◌<◌, ◌^◌, length};
ghost use Rattle.cells.specs.Part.{part, put};
ghost use Rattle.log_batch.specs.Lent.{RowsWithin};
ghost use Rattle.stores.specs.Written.{key_length, row_for, rows_of, count_of, RowsBehind};

use crate::{ENTRIES, ENTRIES_FROM, HEADS_AT, ITEMS, ITEMS_FROM};
use log_batch::item::{LogItem, LogItemContent};

// Writes the row of item `i`.
pub fn write_row(ws: &mut [u64], cells: usize, i: usize, item: LogItem, row: usize)
    requires ws_len { length ws.old ≡ 2 + cells * 218 }
    requires i_bound { i * 9 + 9 ≤ cells * 72 }
    requires content_bound { i * 64 + key_length item.content < 2 ^ 64 }
    ensures { ws.new ≡ put ws.old (2 + cells * 18 + i * 9) (row_for item row (i * 64)) }
{
    let a = HEADS_AT + cells * ITEMS_FROM;
    let e = a + cells * ITEMS;
    stores::row::write_row(&mut ws[a..e], i, item, row);
}

// Copies an item's rows of entries to row `row`, and answers the row behind them.
pub fn copy_rows(
    ws: &mut [u64],
    cells: usize,
    row: usize,
    content: LogItemContent,
    its_entries: &[u64],
) -> usize
    requires ws_len { length ws.old ≡ 2 + cells * 218 }
    requires content_bound { (row + count_of content) * 8 ≤ cells * 128 }
    requires rows_within { RowsWithin content (length its_entries.now) }
    ensures ws_after { ws.new ≡ put ws.old (2 + cells * 90 + row * 8) (rows_of content its_entries.now) }
    ensures value { result ≡ row + count_of content }
{
    let a = HEADS_AT + cells * ENTRIES_FROM;
    let e = a + cells * ENTRIES;
    stores::add::copy_rows(&mut ws[a..e], row, content, its_entries)
}

// Moves an item's rows of entries down to row `row`, and answers the row behind them.
pub fn move_rows(ws: &mut [u64], cells: usize, row: usize, content: LogItemContent) -> usize
    requires ws_len { length ws.old ≡ 2 + cells * 218 }
    requires content_bound { (row + count_of content) * 8 ≤ cells * 128 }
    requires rows_within { RowsWithin content (cells * 128) }
    requires rows_behind { RowsBehind content row }
    ensures ws_after { ws.new ≡ put ws.old (2 + cells * 90 + row * 8) (rows_of content (part (2 + cells * 90) (cells * 128) ws.old)) }
    ensures value { result ≡ row + count_of content }
{
    let a = HEADS_AT + cells * ENTRIES_FROM;
    let e = a + cells * ENTRIES;
    stores::shift::move_rows(&mut ws[a..e], row, content)
}
