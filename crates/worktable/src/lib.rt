// The table of one group that a merge or a join works on, in a long stretch: the group's own functions on it, and a newer table laid over.
#![tactic(auto)]

mod acts;
mod ends;
mod laying;
mod moves;

pub use acts::{act, clear};
pub use ends::{fits, is_there, set_span};
use kvs::rows::{ROW_BYTES, ROW_WIDTH};
pub use laying::lay_over;
pub use moves::{load, unload};
use pipe_log::ENTRY_WIDTH;
use stretch::ENTRIES_AT;

// The rows of entries and of keys that the long stretch has. There is no heap and C lends the area, so its header counts those in use.
const ENTRY_ROWS: usize = 384;

const KEY_ROWS: usize = 160;

// The layout of the long stretch.
pub const KEYS_AT: usize = ENTRIES_AT + ENTRY_ROWS * ENTRY_WIDTH;

pub const NUMBERS: usize = KEYS_AT + KEY_ROWS * ROW_WIDTH;

pub const BYTES: usize = KEY_ROWS * ROW_BYTES;

// Where it stands in an area.
pub const WORK_AT: usize = 13509;

pub const WORK_BYTES_AT: usize = 28672;

// How a newer table is laid over: by the merge of two Append or of two Rewrite contexts, or by the join. Contracts say by it which rule
// the answer follows, so it is data and not a step to run.
#[derive(Clone, Copy)]
pub enum Mode {
    Append,
    Rewrite,
    Join,
}
