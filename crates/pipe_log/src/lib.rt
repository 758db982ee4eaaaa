// Queues, files and the entry record (src/pipe_log.rs; the entry record is src/memtable.rs's `EntryIndex`). The pipe is left out.
// Every code crate depends on this one: document 01's numbers of causes stand here too.
#![tactic(auto)]

pub mod causes;

ghost use Rattle.std.specs.Prelude.{◌≡◌};
ghost use Rattle.pipe_log.specs.Numbers.{queue_number, compression_number};
ghost use Rattle.pipe_log.specs.Rows.{queue_at};
ghost use Rattle.std.specs.Ordering.{nat_cmp, on, flip_args, then_cmp, as_partial_cmp};
ghost use Rattle.std.specs.Cmp.{partial_order_from_own_ties};
ghost use Rattle.std.specs.Cmp.Rules.{comparing};
ghost use Rattle.std.proofs.Common.{rules};
ghost use Rattle.pipe_log.specs.Freshness.{freshness};

pub use causes::{Cause, Refusal};
use std::cmp::Ordering;

// The type of log queue.
#[derive(Clone, Copy, Debug, PartialEq, Eq)]
pub enum LogQueue {
    Append,
    Rewrite,
}

// A unique identifier for a log file. Sequence numbers are unique within a queue.
#[derive(Clone, Copy, Debug, PartialEq, Eq)]
pub struct FileId {
    pub queue: LogQueue,
    pub seq: u64,
}

// A logical pointer to a chunk of log file data.
#[derive(Clone, Copy, Debug, PartialEq, Eq)]
pub struct FileBlockHandle {
    pub id: FileId,
    pub offset: u64,
    pub len: usize,
}

// Types of compression.
#[derive(Clone, Copy, Debug, PartialEq, Eq)]
pub enum CompressionType {
    None,
    Lz4,
}

// The files of a finished atomic group: the first and the last sequence number.
#[derive(Clone, Copy, Debug, PartialEq, Eq)]
pub struct Span {
    pub start: u64,
    pub end: u64,
}

// The numbers of the queues in rows.
pub const APPEND: u64 = 0;

pub const REWRITE: u64 = 1;

// Numbers in the row of an entry record (`specs/Rows.antt`): index, queue, sequence number, offset and length of the block,
// compression type, entry offset, entry length.
pub const ENTRY_WIDTH: usize = 8;

// Location of a log entry: the entry record. An entry that was never written lies in no block.
#[derive(Clone, Copy, Debug, PartialEq, Eq)]
pub struct EntryIndex {
    pub index: u64,
    pub entries: Option<FileBlockHandle>,
    pub compression_type: CompressionType,
    pub entry_offset: u32,
    pub entry_len: u32,
}

impl From<LogQueue> for u64 {
    ghost from_gives = { λ q n. n ≡ queue_number q };

    fn from(queue: LogQueue) -> u64 {
        match queue {
            LogQueue::Append => APPEND,
            LogQueue::Rewrite => REWRITE,
        }
    }
}

// The queue that a number stands for: any number but that of Append stands for Rewrite.
impl From<u64> for LogQueue {
    ghost from_gives = { λ n q. q ≡ queue_at n };

    #[tactic(auto, unfolding(crate::specs::Rows::queue_at))]
    fn from(number: u64) -> LogQueue {
        if number == APPEND {
            return LogQueue::Append;
        }
        LogQueue::Rewrite
    }
}

impl From<CompressionType> for u64 {
    ghost from_gives = { λ t n. n ≡ compression_number t };

    fn from(compression_type: CompressionType) -> u64 {
        match compression_type {
            CompressionType::None => 0,
            CompressionType::Lz4 => 1,
        }
    }
}

impl FileId {
    pub fn new(queue: LogQueue, seq: u64) -> Self
        ensures { (result.queue ≡ queue) × (result.seq ≡ seq) }
    {
        FileId { queue, seq }
    }
}

// Order by freshness: any Append file is fresher than any Rewrite file.
impl Ord for FileId {
    ghost cmp = { freshness };

    ghost total = { Prim.search (comparing, rules) };

    ghost matches_partial_cmp = { Prim.search (comparing, rules) };

    ghost matches_eq = { Prim.search (comparing, rules) };

    fn cmp(&self, other: &FileId) -> Ordering {
        let queues = u64::from(other.queue).cmp(&u64::from(self.queue));
        queues.then(self.seq.cmp(&other.seq))
    }
}

impl PartialOrd for FileId {
    ghost partial_cmp = { as_partial_cmp freshness };

    ghost laws = { partial_order_from_own_ties (Prim.search (comparing, rules)) (Prim.search (comparing, rules)) };

    fn partial_cmp(&self, other: &FileId) -> Option<Ordering> {
        Some(self.cmp(other))
    }
}
