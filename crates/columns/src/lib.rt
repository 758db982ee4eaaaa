// Fetches of a group's records into eight lent slices, one for each field of a row, on a context or the index (src/memtable.rs,
// `fetch_entries_to` and its like). C lends them as eight, so they are eight parameters.
#![tactic(auto)]

mod copies;
mod fetch;
mod slices;

pub use copies::copy_rows;
pub use fetch::{fetch_entries_to, fetch_entry_indexes_before, fetch_rewritten_entry_indexes};
