// Document 01's program `takes`, without its input and output: the runs, and the input byte by byte.
#![tactic(auto)]

pub mod blocks;
pub mod bytes;
mod calls;
pub mod end;
mod runs;
mod totals;
