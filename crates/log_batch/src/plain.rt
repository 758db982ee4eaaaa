// A list of entries that meets none of 3 to 6, told by one pass over its rows.
#![tactic(auto, unfolding(crate::specs::Plain::plain_row, crate::specs::Plain::plain_list, crate::specs::Plain::plain_content))]

ghost use Rattle.std.specs.Prelude.{◌≡◌, ◌+◌, ◌*◌, ◌≤◌, ◌^◌, length};
ghost use Rattle.rules.specs.Items.{writes};
ghost use Rattle.log_batch.specs.Lent.{RowsWithin};
ghost use Rattle.log_batch.specs.Judged.{call_of};
ghost use Rattle.log_batch.specs.Plain.{plain_row, plain_rows, plain_list, plain_content};

use crate::causes::Call;
use crate::entries::{ENTRY_OFFSETS, MAX_COMPRESSION, MAX_ENTRY_LEN, MAX_INDEX};
use crate::item::{LogItemContent, entries_of};
use pipe_log::{ENTRY_WIDTH, LogQueue};

// Whether the first row is a record at an index, of the queue with a number, whose entry length is in range.
fn is_plain(row: &[u64], index: u64, queue: u64) -> bool
    requires { 8 ≤ length row.now }
    ensures { result ≡ plain_row queue index row.now }
{
    row[0] == index
        && row[1] == queue
        && row[5] <= MAX_COMPRESSION
        && row[7] <= MAX_ENTRY_LEN
        && row[6] < ENTRY_OFFSETS
}

// Whether the first `count` rows are such records, at the indexes from `first` on.
fn are_plain(rows: &[u64], count: usize, first: u64, queue: u64) -> bool
    requires { (count * 8 ≤ length rows.now) × (first + count ≤ 2 ^ 63) }
    ensures { result ≡ plain_rows queue first count rows.now }
{
    for i in 0..count {
        if !is_plain(&rows[i * ENTRY_WIDTH..], first + i as u64, queue) {
            return false;
        }
    }
    true
}

// The same with the first row's index as the first, if there is a row and the last index is in range.
fn is_plain_list(rows: &[u64], count: usize, queue: u64) -> bool
    requires { count * 8 ≤ length rows.now }
    ensures { result ≡ plain_list queue count rows.now }
{
    if count == 0 {
        return false;
    }
    let first = rows[0];
    first <= MAX_INDEX
        && (count - 1) as u64 <= MAX_INDEX - first
        && are_plain(rows, count, first, queue)
}

// Whether an item is such a list, of a queue.
pub fn is_plain_of(queue: LogQueue, content: LogItemContent, entries: &[u64]) -> bool
    requires { RowsWithin content (length entries.now) }
    ensures { result ≡ plain_content queue content entries.now }
{
    match content {
        LogItemContent::EntryIndexes(list) => {
            let rows = entries_of(entries, list.at, list.count);
            is_plain_list(rows, list.count, u64::from(queue))
        }
        LogItemContent::Command(_) | LogItemContent::Kv(_) => false,
    }
}

// The same of the queue that the call writes.
pub fn is_plain_content(call: Call, content: LogItemContent, entries: &[u64]) -> bool
    requires { RowsWithin content (length entries.now) }
    ensures { result ≡ plain_content (writes (call_of call)) content entries.now }
{
    is_plain_of(call.writes(), content, entries)
}
