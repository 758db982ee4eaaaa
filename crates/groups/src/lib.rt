// Eight stretches of an area as the groups of a context: where a group stands, changes of it, and what a refused batch goes
// back to. The stretches are the front of the area's numbers and bytes; behind them stand eight spare stretches.
#![tactic(auto)]

mod calls;
mod entries;
mod search;
mod undoing;

pub use calls::{apply, remove};
pub use cells::Slot;
pub use entries::{append_at, rewrite_at};
pub use search::find;
pub use undoing::{begin, secure, secure_removal, undo};

// How many groups there can be. There is no heap and C lends the area, so a stretch has a fixed number of rows and counts those in use.
pub const SLOTS: usize = 8;

// The numbers and the bytes that the stretches and the spare ones take.
pub const NUMBERS: usize = 2 * SPARES_AT;

pub const BYTES: usize = 2 * SLOTS * stretch::BYTES;

// Where the spare stretches begin in the numbers.
pub const SPARES_AT: usize = SLOTS * stretch::STRETCH;
