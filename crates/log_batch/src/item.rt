// Items of a batch as places in the lent slices (src/log_batch.rs).
ghost use Rattle.std.specs.Prelude.{◌≡◌, ◌+◌, ◌*◌, ◌≤◌, length};
ghost use Rattle.cells.specs.Part.{part};

use pipe_log::{ENTRY_WIDTH, FileId};

#[derive(Clone, Copy)]
pub enum Command {
    Clean,
    Compact { index: u64 },
}

#[derive(Clone, Copy)]
pub enum OpType {
    Put,
    Del,
}

// The places of a list's rows in the lent rows of entries.
#[derive(Clone, Copy)]
pub struct EntryIndexes {
    pub at: usize,
    pub count: usize,
}

// The place of a value in the lent bytes.
#[derive(Clone, Copy)]
pub struct Bytes {
    pub at: usize,
    pub len: usize,
}

// A key change, with the place of its key in the lent bytes.
#[derive(Clone, Copy)]
pub struct KeyValue {
    pub op_type: OpType,
    pub key_at: usize,
    pub key_len: usize,
    // A Put may lack its value and its file.
    pub value: Option<Bytes>,
    pub file_id: Option<FileId>,
}

#[derive(Clone, Copy)]
pub enum LogItemContent {
    EntryIndexes(EntryIndexes),
    Command(Command),
    Kv(KeyValue),
}

#[derive(Clone, Copy)]
pub struct LogItem {
    pub raft_group_id: u64,
    pub content: LogItemContent,
}

// The rows of an item's entries.
pub fn entries_of(entries: &[u64], at: usize, count: usize) -> &[u64]
    requires { (at + count) * 8 ≤ length entries.now }
    ensures result_value { result.now ≡ part (at * 8) (count * 8) entries.now }
    ensures result_len { length result.now ≡ count * 8 }
{
    let start = at * ENTRY_WIDTH;
    let end = start + count * ENTRY_WIDTH;
    &entries[start..end]
}

// The bytes of a key or value.
pub fn bytes_of(bytes: &[u8], at: usize, len: usize) -> &[u8]
    requires { at + len ≤ length bytes.now }
    ensures result_value { result.now ≡ part at len bytes.now }
    ensures result_len { length result.now ≡ len }
{
    let end = at + len;
    &bytes[at..end]
}
