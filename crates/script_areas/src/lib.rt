// The contexts of a script, in eight areas, and a call of the script made on the area that it names and compared with the stored answer.
#![tactic(auto)]

mod calls;
mod store;
mod writing;

pub use store::{ALL_BYTES, ALL_NUMBERS, fresh_all, run};
