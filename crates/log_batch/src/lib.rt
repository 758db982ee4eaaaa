// Batches as they are lent (src/log_batch.rs, and the internal keys of src/lib.rs; encoding and files are left out): items with
// places in the lent slices, opening an item, marks, and the checks 2 to 7.
#![tactic(auto)]

pub mod batch;
pub mod causes;
pub mod checks;
pub mod entries;
pub mod item;
pub mod mark;
pub mod open;
pub mod plain;

pub use batch::{LogBatch, RewriteReplay};
pub use causes::Call;
pub use checks::check;
