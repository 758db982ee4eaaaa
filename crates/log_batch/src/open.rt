// Opening an item: a row of numbers into its group and its entries, command or key change.
#![tactic(auto, unfolding(crate::specs::Lent::item_if, crate::specs::Lent::value_fits, crate::specs::Lent::value_at, crate::specs::Lent::file_at, crate::specs::Lent::opened_entries, crate::specs::Lent::opened_put, crate::specs::Lent::opened_del, crate::specs::Lent::opened_row, crate::specs::Lent::row_count_of))]

ghost use Rattle.std.specs.Prelude.{◌≡◌, ◌+◌, ◌*◌, ◌/◌, ◌≤◌, ◌<◌, leb, length, drop};
ghost use Rattle.log_batch.specs.Batch.{count_in};
ghost use Rattle.log_batch.specs.Lent.{row_count_of, value_fits, value_at, file_at, opened_entries, opened_put, opened_del, opened_row, OpenedWithin};

use crate::batch::LogBatch;
use crate::item::{Bytes, Command, EntryIndexes, KeyValue, LogItem, LogItemContent, OpType};
use pipe_log::{APPEND, ENTRY_WIDTH, FileId, LogQueue, REWRITE};

// Numbers in a row of items: group, tag, and by the tag the first row and the count of a list, the index of a Compact, or the place and
// the length of a key; and of a Put whether it has a value, the value's place and length, and the queue and the number of its file.
pub const ITEM_WIDTH: usize = 9;

// The numbers of a row behind its first one.
const ITEM_REST: usize = ITEM_WIDTH - 1;

// The tags of rows.
pub const LIST: u64 = 0;

pub const CLEAN: u64 = 1;

pub const COMPACT: u64 = 2;

pub const PUT: u64 = 3;

pub const DEL: u64 = 4;

// Whether a row has a value.
pub const NO_VALUE: u64 = 0;

pub const HAS_VALUE: u64 = 1;

// What a row without a file has for the file's queue; any number above the queues' tells the same.
pub const NO_FILE: u64 = 2;

// A row that opens to no item, of which the group alone is known.
#[derive(Clone, Copy)]
pub struct Unopened {
    pub raft_group_id: u64,
}

// The number of items: a last row that is cut short counts.
pub fn row_count(items: &[u64]) -> usize
    ensures { result ≡ row_count_of items.now }
{
    (items.len() + ITEM_REST) / ITEM_WIDTH
}

// Whether `len` places from `at` are within the first `end`.
fn within(at: usize, len: usize, end: usize) -> bool
    ensures { result ≡ leb (at + len) end }
{
    at <= end && len <= end - at
}

// Whether a row says that there is no value, or one within the bytes.
fn value_fits(row: &[u64], bytes: usize) -> bool
    requires { 9 ≤ length row.now }
    ensures { result ≡ value_fits row.now bytes }
{
    match row[4] {
        NO_VALUE => true,
        HAS_VALUE => within(row[5] as usize, row[6] as usize, bytes),
        _ => false,
    }
}

fn value_at(row: &[u64]) -> Option<Bytes>
    requires { 9 ≤ length row.now }
    ensures { result ≡ value_at row.now }
{
    if row[4] == NO_VALUE {
        return None;
    }
    Some(Bytes {
        at: row[5] as usize,
        len: row[6] as usize,
    })
}

fn file_at(row: &[u64]) -> Option<FileId>
    requires { 9 ≤ length row.now }
    ensures { result ≡ file_at row.now }
{
    let queue = match row[7] {
        APPEND => LogQueue::Append,
        REWRITE => LogQueue::Rewrite,
        _ => return None,
    };
    Some(FileId { queue, seq: row[8] })
}

fn open_entries(row: &[u64], rows: usize) -> Result<LogItem, Unopened>
    requires { 9 ≤ length row.now }
    ensures { result ≡ opened_entries row.now rows }
{
    let at = row[2] as usize;
    let count = row[3] as usize;
    let raft_group_id = row[0];
    if !within(at, count, rows) {
        return Err(Unopened { raft_group_id });
    }
    let content = LogItemContent::EntryIndexes(EntryIndexes { at, count });
    Ok(LogItem {
        raft_group_id,
        content,
    })
}

fn open_put(row: &[u64], bytes: usize) -> Result<LogItem, Unopened>
    requires { 9 ≤ length row.now }
    ensures { result ≡ opened_put row.now bytes }
{
    let key_at = row[2] as usize;
    let key_len = row[3] as usize;
    let raft_group_id = row[0];
    if !within(key_at, key_len, bytes) || !value_fits(row, bytes) {
        return Err(Unopened { raft_group_id });
    }
    let kv = KeyValue {
        op_type: OpType::Put,
        key_at,
        key_len,
        value: value_at(row),
        file_id: file_at(row),
    };
    Ok(LogItem {
        raft_group_id,
        content: LogItemContent::Kv(kv),
    })
}

fn open_del(row: &[u64], bytes: usize) -> Result<LogItem, Unopened>
    requires { 9 ≤ length row.now }
    ensures { result ≡ opened_del row.now bytes }
{
    let key_at = row[2] as usize;
    let key_len = row[3] as usize;
    let raft_group_id = row[0];
    if !within(key_at, key_len, bytes) {
        return Err(Unopened { raft_group_id });
    }
    let kv = KeyValue {
        op_type: OpType::Del,
        key_at,
        key_len,
        value: None,
        file_id: None,
    };
    Ok(LogItem {
        raft_group_id,
        content: LogItemContent::Kv(kv),
    })
}

fn open_command(raft_group_id: u64, command: Command) -> Result<LogItem, Unopened>
    ensures { result ≡ Ok (record { raft_group_id = raft_group_id; content = LogItemContent.Command command }) }
{
    Ok(LogItem {
        raft_group_id,
        content: LogItemContent::Command(command),
    })
}

// Opens the row at the front of `row`.
fn open_row(row: &[u64], rows: usize, bytes: usize) -> Result<LogItem, Unopened>
    requires { 0 < length row.now }
    ensures { result ≡ opened_row row.now rows bytes }
{
    let raft_group_id = row[0];
    if row.len() < ITEM_WIDTH {
        return Err(Unopened { raft_group_id });
    }
    match row[1] {
        LIST => open_entries(row, rows),
        CLEAN => open_command(raft_group_id, Command::Clean),
        COMPACT => open_command(raft_group_id, Command::Compact { index: row[2] }),
        PUT => open_put(row, bytes),
        DEL => open_del(row, bytes),
        _ => Err(Unopened { raft_group_id }),
    }
}

// Opens item i.
pub fn open_item(batch: &LogBatch, i: usize) -> Result<LogItem, Unopened>
    requires { i < count_in batch.now }
    ensures value { result ≡ opened_row (drop (i * 9) batch.now.items.now) (length batch.now.entries.now / 8) (length batch.now.bytes.now) }
    ensures opened_within { OpenedWithin result (length batch.now.entries.now) (length batch.now.bytes.now) }
{
    let start = i * ITEM_WIDTH;
    open_row(
        &batch.items[start..],
        batch.entries.len() / ENTRY_WIDTH,
        batch.bytes.len(),
    )
}
