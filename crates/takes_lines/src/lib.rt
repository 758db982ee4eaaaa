// Lines of document 01's program `takes`: read byte by byte in fixed memory, and written into a lent slice.
#![tactic(auto)]

mod add;
mod close;
pub mod fields;
mod items;
pub mod line;
pub mod output;
pub mod reader;

pub use line::{Lent, Line, LineReader, Malformed, OpenLine};
pub use reader::{feed, feed_all, finish, read_line, start};
