// The thin fetch: a group's entry records of a context or the index, fetched into a lent list of records, or of rows of numbers.
#![tactic(auto)]

mod fetching;
mod fill;
mod listing;
mod planning;
mod rows;

pub use fetching::fetch_records;
pub use listing::fetch_listed;
use pipe_log::{Cause, EntryIndex};
pub use rows::{fetch_rewritten_rows, fetch_rows_before, fetch_rows_to};
use stretch::MAX_ENTRIES;

// A fetch of entry records, with its arguments.
#[derive(Clone, Copy)]
pub enum Fetch {
    EntriesTo {
        begin: u64,
        end: u64,
        max_size: Option<u64>,
    },
    EntryIndexesBefore {
        gate: u64,
    },
    RewrittenEntryIndexes,
}

// What a fetch stores: the records of `count` rows from place `at` of the area's numbers on, of which the first has the index `first`.
#[derive(Clone, Copy)]
pub struct Plan {
    pub at: usize,
    pub first: u64,
    pub count: usize,
}

// How many records a list by value has: as many as a group can have entries.
pub const LISTED: usize = MAX_ENTRIES;

// What a fetch into a list by value gives: the answer, and the list, which a refusal leaves as it was.
#[derive(Clone, Copy)]
pub struct Listed {
    pub answer: Result<usize, Cause>,
    pub list: [EntryIndex; LISTED],
}
