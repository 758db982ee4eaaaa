// The row of numbers of an item, with the places that the item has in a store.
#![tactic(auto, unfolding(crate::specs::Written::row_for))]

ghost use Rattle.std.specs.Prelude.{◌≡◌, ◌+◌, ◌*◌, ◌≤◌, ◌<◌, ◌^◌, length};
ghost use Rattle.cells.specs.Part.{put};
ghost use Rattle.stores.specs.Written.{file_number, file_seq, value_told, value_length, key_length, command_row, put_row, key_row, row_for};

use log_batch::causes::MAX_BYTES;
use log_batch::item::{Bytes, Command, KeyValue, LogItem, LogItemContent, OpType};
use log_batch::open::{CLEAN, COMPACT, DEL, HAS_VALUE, ITEM_WIDTH, LIST, NO_FILE, NO_VALUE, PUT};
use pipe_log::FileId;

// The bytes that each item has of its own: a key and a value.
pub const ITEM_BYTES: usize = 2 * MAX_BYTES;

// The number that tells a key's file, and the file's own.
fn file_number(file_id: Option<FileId>) -> u64
    ensures { result ≡ file_number file_id }
{
    match file_id {
        None => NO_FILE,
        Some(file) => u64::from(file.queue),
    }
}

fn file_seq(file_id: Option<FileId>) -> u64
    ensures { result ≡ file_seq file_id }
{
    match file_id {
        None => 0,
        Some(file) => file.seq,
    }
}

// The number that tells whether there is a value, and its length.
fn value_told(value: Option<Bytes>) -> u64
    ensures { result ≡ value_told value }
{
    match value {
        None => NO_VALUE,
        Some(_) => HAS_VALUE,
    }
}

fn value_len(value: Option<Bytes>) -> usize
    ensures { result ≡ value_length value }
{
    match value {
        None => 0,
        Some(value) => value.len,
    }
}

fn command_row(raft_group_id: u64, command: Command) -> [u64; ITEM_WIDTH]
    ensures { result ≡ command_row raft_group_id command }
{
    match command {
        Command::Clean => [raft_group_id, CLEAN, 0, 0, 0, 0, 0, 0, 0],
        Command::Compact { index } => [raft_group_id, COMPACT, index, 0, 0, 0, 0, 0, 0],
    }
}

// The row of a Put whose key and value stand from place `at`.
fn put_row(raft_group_id: u64, kv: KeyValue, at: usize) -> [u64; ITEM_WIDTH]
    requires { at + kv.key_len < 2 ^ 64 }
    ensures { result ≡ put_row raft_group_id kv at }
{
    [
        raft_group_id,
        PUT,
        at as u64,
        kv.key_len as u64,
        value_told(kv.value),
        (at + kv.key_len) as u64,
        value_len(kv.value) as u64,
        file_number(kv.file_id),
        file_seq(kv.file_id),
    ]
}

// The row of a key change whose key and value stand from place `at`.
fn key_row(raft_group_id: u64, kv: KeyValue, at: usize) -> [u64; ITEM_WIDTH]
    requires { at + kv.key_len < 2 ^ 64 }
    ensures { result ≡ key_row kv.op_type raft_group_id kv at }
{
    match kv.op_type {
        OpType::Put => put_row(raft_group_id, kv, at),
        OpType::Del => [
            raft_group_id,
            DEL,
            at as u64,
            kv.key_len as u64,
            NO_VALUE,
            0,
            0,
            NO_FILE,
            0,
        ],
    }
}

// The row of an item whose rows of entries stand from row `row`, and its bytes from place `at`.
fn row_for(item: LogItem, row: usize, at: usize) -> [u64; ITEM_WIDTH]
    requires { at + key_length item.content < 2 ^ 64 }
    ensures { result ≡ row_for item row at }
{
    let group = item.raft_group_id;
    match item.content {
        LogItemContent::EntryIndexes(list) => {
            [group, LIST, row as u64, list.count as u64, 0, 0, 0, 0, 0]
        }
        LogItemContent::Command(command) => command_row(group, command),
        LogItemContent::Kv(kv) => key_row(group, kv, at),
    }
}

// Writes the row of item `i` of a store, whose rows of entries stand from row `row`.
pub fn write_row(items: &mut [u64], i: usize, item: LogItem, row: usize)
    requires i_in_bounds { i * 9 + 9 ≤ length items.old }
    requires content_bound { i * 64 + key_length item.content < 2 ^ 64 }
    ensures { items.new ≡ put items.old (i * 9) (row_for item row (i * 64)) }
{
    let numbers = row_for(item, row, i * ITEM_BYTES);
    cells::copy_in(items, i * ITEM_WIDTH, &numbers);
}
