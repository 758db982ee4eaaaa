// The calls that users make, on contexts and the index over lent areas (src/memtable.rs: the accessor of groups, recovery and live
// writes), and what their answers are made of. Each call and its contract stand in the crate that it is taken from.
#![tactic(auto)]

pub use columns::{fetch_entries_to, fetch_entry_indexes_before, fetch_rewritten_entry_indexes};
pub use contexts::{Area, BYTES, NUMBERS, fresh};
pub use log_batch::LogBatch;
pub use merging::{join, merge};
pub use pipe_log::{Cause, EntryIndex, Refusal};
pub use queries::{
    entry_count, fetch_kvs_before, fetch_rewritten_kvs, first_index, get, get_entry, group_numbers,
    has_at_least_some_entries_before, is_empty, key_count, last_index, live_entries, min_file_seq,
    rewrite_count, scan, take_cleaned_region_logs,
};
pub use records::{fetch_rewritten_rows, fetch_rows_before, fetch_rows_to};
pub use writes::{append, replay, rewrite};
