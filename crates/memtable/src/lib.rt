// One group's table over its part of the lent area (src/memtable.rs, `MemTable`): the entries. The head goes in by value
// and comes back changed; the entries are rows of eight numbers in the group's part.
#![tactic(auto)]

mod append;
mod compact;
mod entries;
mod fetch;
mod rewrite;
mod rows;
mod scans;
mod seqs;
mod spans;
pub mod table;

use pipe_log::Span;
pub use rows::entry_at;

// A group's head. The entries are the first `len` rows of the group's part, oldest first, by consecutive indexes from
// `first_index`; the first `rewrite_count` of them are of the Rewrite queue, the others of the Append queue. There is no heap and C lends
// the part, so the head counts the rows in use.
#[derive(Clone, Copy)]
pub struct Head {
    pub first_index: u64,
    pub len: usize,
    pub rewrite_count: usize,
    pub atomic_group: Option<Span>,
}

// The rows that a fetch answers: so many from one on.
#[derive(Clone, Copy)]
pub struct RowRange {
    pub from: usize,
    pub count: usize,
}

// What a compaction answers: the head, and the number of dropped entries.
#[derive(Drop)]
pub struct Compacted {
    pub head: Head,
    pub count: u64,
}
