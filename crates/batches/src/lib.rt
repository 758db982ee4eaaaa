// A batch on an area, item by item: the deed on the groups, what it adds to the lists, and back if an item is refused.
#![tactic(auto)]

mod acts;
mod batches;
mod growth;
mod items;
mod singles;

pub use batches::{go_back, run_items, turn};
pub use items::carry_out;
pub use singles::{
    append_call, append_list, is_single_list, is_single_put, rewrite_list, run_list, run_put,
};
