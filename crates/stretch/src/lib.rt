// The stretch of an area that holds one group: a header, rows of entries and rows of keys in numbers, and the keys' bytes. Its width is
// told by the place where the rows of keys begin and by the lengths of the slices.
// A change is carried out by the tables' own functions, `memtable` and `kvs`, each on its part of the stretch. What writes a stretch is
// passed its two slices: a struct that holds `&mut`s is no plainer (`kvs::Keys` says why).
#![tactic(auto)]

mod changes;
mod entries;
mod header;
mod keys;
mod reach;
mod spans;

pub use changes::apply;
pub use entries::{append, join, replay_rewrite, rewrite};
pub use header::{head_in, make, write_head};
pub use keys::lay_keys;
use kvs::rows::{ROW_BYTES, ROW_WIDTH};
use pipe_log::{ENTRY_WIDTH, LogQueue};
pub use reach::{row_from, writes_keys};
pub use spans::{set_span, write_span};

// Document 01's limits of a group. There is no heap and C lends the area, so a stretch has so many rows and its header counts those in
// use.
pub const MAX_ENTRIES: usize = 64;

pub const MAX_KEYS: usize = 16;

// Where the header of a stretch has the number of entries, the number of keys, and whether the live counts have the group. Its numbers
// are: used, group, first index, entries, Rewrite entries, whether there is a span, its start and its end, keys, counted.
pub const ENTRY_COUNT: usize = 3;

pub const KEY_COUNT: usize = 8;

pub const COUNTED: usize = 9;

// The layout of a group's stretch.
pub const ENTRIES_AT: usize = 10;

pub const KEYS_AT: usize = ENTRIES_AT + MAX_ENTRIES * ENTRY_WIDTH;

pub const STRETCH: usize = KEYS_AT + MAX_KEYS * ROW_WIDTH;

pub const BYTES: usize = MAX_KEYS * ROW_BYTES;

// What an item does to its group. The rows of entries, the key and the value are lent beside it. Contracts say by it which rule the
// answer follows (`rule_of`), so it is data and no step to run.
#[derive(Clone, Copy)]
pub enum Change {
    Append { first: u64, live: bool },
    ReplayRewrite { first: u64 },
    Rewrite { first: u64, gate: Option<u64> },
    Compact { index: u64 },
    Put { queue: LogQueue, seq: u64 },
    Delete,
    RewriteKey { gate: Option<u64>, seq: u64 },
    Make,
}
