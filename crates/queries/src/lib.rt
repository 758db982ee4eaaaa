// The queries of a context or the index over a lent area (src/memtable.rs, `MemTableAccessor` and `MemTable`): of one group by its
// number, of all groups, and the cleaned numbers of the index.
#![tactic(auto)]

mod all;
mod cleaned;
mod entries;
mod files;
mod keys;
mod places;

pub use all::{group_numbers, is_empty, live_entries};
pub use cleaned::take_cleaned_region_logs;
pub use entries::{
    entry_count, first_index, get_entry, has_at_least_some_entries_before, last_index,
    rewrite_count,
};
pub use files::min_file_seq;
pub use keys::{fetch_kvs_before, fetch_rewritten_kvs, get, key_count, scan};
pub use places::{entry_rows, head_at, place_of};
