// Merge and join of recovery (src/memtable.rs): the groups are staged (crate `staging`), and at the end the staged groups become the
// groups.
#![tactic(auto)]

mod calls;
mod ends;
mod growth;
mod waits;

pub use calls::{join, merge};
