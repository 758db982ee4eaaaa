// A part of Rewrite replay that comes to the room in which parts wait: where its group waits, what becomes of it by the limits and the
// newest part there, and how it is put into a cell.
#![tactic(auto)]

mod accept;
pub mod find;
mod forms;
mod limits;
mod merge;
mod moves;

pub use accept::{accept_batch, take_finished};
pub use limits::count_used;
pub use merge::accept_part;
pub use moves::PartItems;

// What a part has beside its items: its status, and its first and its last file.
#[derive(Clone, Copy)]
pub struct PartHead {
    // the number of its status, as a mark's byte has it; one above 2 stands for the last status too
    pub status: u64,
    pub start: u64,
    pub end: u64,
}

// What becomes of a part that comes to the newest part of its group. It is what the rules answer (`step_of`), and no step to run.
#[derive(Clone, Copy)]
pub enum Step {
    // it waits, put into the cell in a form other than `First`
    Wait(Form),
    // it is dropped
    Drop,
    // it finishes the newest part
    Finish,
    // files go back
    Back,
}

// How a part that waits is put into a cell. Contracts say by it what the cell has afterwards (`form_head`), so it is data.
#[derive(Clone, Copy)]
pub enum Form {
    // as the first of its group
    First,
    // in front of the newest part
    Front,
    // in place of the newest part
    Replace,
    // joined to the newest part
    Join,
}
