// The waiting parts of two contexts in a merge: which of them finish, the tombstones among these, and what waits afterwards.
#![tactic(auto)]

mod endings;
mod finals;
mod items;
mod keeps;
mod limits;
mod takings;
mod walks;

pub use endings::{find_finishing, has_items};
pub use finals::count_finals;
pub use items::items_in;
pub use keeps::keep_finals;
pub use limits::room_fits;
pub use takings::take_parts;

// The parts that are finished: the tags of their items in the older and in the newer room, and the first and the last file.
#[derive(Clone, Copy)]
pub struct Ending {
    pub older: u64,
    pub newer: u64,
    pub start: u64,
    pub end: u64,
}
