// What an item does to its group: it is taken apart before any table is touched.
#![tactic(auto)]

ghost use Rattle.std.specs.Prelude.{◌≡◌, [], length, get_or};
ghost use Rattle.log_batch.specs.Lent.{RowsWithin, ValueWithin, BytesWithin, Within};
ghost use Rattle.deeds.specs.Deeds.{rows_in, key_in, value_part, value_in, entries_change, command_deed, put_held_deed, put_deed, key_deed, deed_of};

use log_batch::Call;
use log_batch::item::{Bytes, Command, KeyValue, LogItemContent, OpType, bytes_of, entries_of};
use log_batch::mark::is_reserved;
use pipe_log::FileId;
use stretch::Change;

// What an item does to its group in a call: a reserved one nothing, a Clean removes it, any other changes its table. Contracts say by it
// what the rules make of the table, so it is data and not a step to run.
#[derive(Drop)]
pub enum Deed {
    Skip,
    Clean,
    Change(Change),
}

// The rows of an item's entries.
pub fn rows_in(content: LogItemContent, entries: &[u64]) -> &[u64]
    requires { RowsWithin content (length entries.now) }
    ensures { result.now ≡ rows_in content entries.now }
{
    match content {
        LogItemContent::EntryIndexes(list) => entries_of(entries, list.at, list.count),
        LogItemContent::Command(_) | LogItemContent::Kv(_) => &[],
    }
}

// The bytes of an item's key.
pub fn key_in(content: LogItemContent, bytes: &[u8]) -> &[u8]
    requires { BytesWithin content (length bytes.now) }
    ensures { result.now ≡ key_in content bytes.now }
{
    match content {
        LogItemContent::EntryIndexes(_) | LogItemContent::Command(_) => &[],
        LogItemContent::Kv(kv) => bytes_of(bytes, kv.key_at, kv.key_len),
    }
}

fn value_part(value: Option<Bytes>, bytes: &[u8]) -> &[u8]
    requires { ValueWithin value (length bytes.now) }
    ensures { result.now ≡ value_part value bytes.now }
{
    match value {
        None => &[],
        Some(Bytes { at, len }) => bytes_of(bytes, at, len),
    }
}

// The bytes of an item's value.
pub fn value_in(content: LogItemContent, bytes: &[u8]) -> &[u8]
    requires { BytesWithin content (length bytes.now) }
    ensures { result.now ≡ value_in content bytes.now }
{
    match content {
        LogItemContent::EntryIndexes(_) | LogItemContent::Command(_) => &[],
        LogItemContent::Kv(kv) => value_part(kv.value, bytes),
    }
}

// What a list of entries from index `first` does.
fn entries_change(call: Call, first: u64) -> Change
    ensures { result ≡ entries_change call first }
{
    match call {
        Call::ReplayAppend => Change::Append { first, live: false },
        Call::ReplayRewrite => Change::ReplayRewrite { first },
        Call::LiveAppend => Change::Append { first, live: true },
        Call::LiveRewrite { gate, seq: _ } => Change::Rewrite { first, gate },
    }
}

// What a command does; in a live rewrite Clean only makes the group.
fn command_deed(call: Call, command: Command) -> Deed
    ensures { result ≡ command_deed call command }
{
    match command {
        Command::Compact { index } => Deed::Change(Change::Compact { index }),
        Command::Clean => match call {
            Call::ReplayAppend => Deed::Clean,
            Call::ReplayRewrite => Deed::Clean,
            Call::LiveAppend => Deed::Clean,
            Call::LiveRewrite { gate: _, seq: _ } => Deed::Change(Change::Make),
        },
    }
}

// What a Put does that is read: it has a file, or met 3.
fn put_held_deed(file_id: Option<FileId>) -> Deed
    ensures { result ≡ put_held_deed file_id }
{
    let Some(file) = file_id else {
        return Deed::Skip;
    };
    let queue = file.queue;
    Deed::Change(Change::Put {
        queue,
        seq: file.seq,
    })
}

// What a Put of a key that is not reserved does; a live rewrite moves the key's file instead.
fn put_deed(call: Call, file_id: Option<FileId>) -> Deed
    ensures { result ≡ put_deed call file_id }
{
    match call {
        Call::ReplayAppend => put_held_deed(file_id),
        Call::ReplayRewrite => put_held_deed(file_id),
        Call::LiveAppend => put_held_deed(file_id),
        Call::LiveRewrite { gate, seq } => Deed::Change(Change::RewriteKey { gate, seq }),
    }
}

// What a change of a key that is not reserved does.
fn key_deed(call: Call, kv: KeyValue) -> Deed
    ensures { result ≡ key_deed call kv }
{
    let op_type = kv.op_type;
    let OpType::Put = op_type else {
        return Deed::Change(Change::Delete);
    };
    let file_id = kv.file_id;
    put_deed(call, file_id)
}

// The index of a list's first entry; of an empty list any number serves.
#[tactic(auto, using(crate::specs::DeedLaws::none_first))]
fn first_of(rows: &[u64]) -> u64
    ensures { result ≡ get_or rows.now 0 0 }
{
    if rows.len() == 0 {
        return 0;
    }
    rows[0]
}

// What an item does to its group.
#[tactic(auto, unfolding(crate::specs::Deeds::deed_of))]
pub fn deed_of(call: Call, content: LogItemContent, entries: &[u64], bytes: &[u8]) -> Deed
    requires { Within content (length entries.now) (length bytes.now) }
    ensures { result ≡ deed_of call content entries.now bytes.now }
{
    match content {
        LogItemContent::EntryIndexes(list) => {
            let at = list.at;
            let count = list.count;
            Deed::Change(entries_change(call, first_of(entries_of(entries, at, count))))
        }
        LogItemContent::Command(command) => command_deed(call, command),
        LogItemContent::Kv(kv) => {
            if is_reserved(content, bytes) {
                return Deed::Skip;
            }
            key_deed(call, kv)
        }
    }
}
