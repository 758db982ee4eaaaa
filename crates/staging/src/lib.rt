// The groups of a merge or join (src/memtable.rs), one after the other: what becomes of a group is worked in the long stretch of the
// older area and staged in a spare stretch.
#![tactic(auto)]

mod finishes;
mod marks;
mod numbers;
mod replays;
mod stages;
mod tombs;
mod work;

pub use finishes::copy_room;
pub use marks::{begin, seal};
pub use stages::stage_all;

// What the groups met: whether one was refused, and whether one passed a limit. Both may be so.
#[derive(Clone, Copy)]
pub struct Flags {
    pub clashed: bool,
    pub passed: bool,
}
