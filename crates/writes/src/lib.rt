// The calls of a batch (src/memtable.rs): replay into a context, and the live append and rewrite of the index.
#![tactic(auto)]

mod calls;
mod finish;
mod marked;
mod replays;
mod spans;
mod stored;
mod writes;

pub use calls::{append, rewrite};
pub use replays::replay;
