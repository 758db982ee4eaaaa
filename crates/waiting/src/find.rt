// Where the parts of a group wait, and what becomes of a part that comes to them.
#![tactic(auto, unfolding(crate::specs::Steps::is_of, crate::specs::Steps::is_free_cell, crate::specs::Steps::step_by, crate::specs::Steps::step_of, crate::specs::Steps::Found, log_batch::specs::Judged::status_as))]

ghost use Rattle.std.specs.Prelude.{◌≡◌, ◌+◌, ◌*◌, ◌<◌, length};
ghost use Rattle.cells.specs.Part.{part};
ghost use Rattle.log_batch.specs.Judged.{status_as};
ghost use Rattle.room.specs.Rooms.{head_at};
ghost use Rattle.waiting.specs.Steps.{is_of, is_free_cell, step_by, step_of, FirstOf, Found};

use crate::{Form, PartHead, Step};
use cells::Slot;
use log_batch::mark::AtomicGroupStatus;
use room::{HEAD_WIDTH, HEADS_AT};

// Whether cell `k` has parts of a group.
#[tactic(auto, using(crate::proofs::Finding::is_of_used, crate::proofs::Finding::is_of_free))]
fn is_of(ws: &[u64], cells: usize, group: u64, k: usize) -> bool
    requires { (length ws.now ≡ 2 + cells * 218) × (k < cells) }
    ensures { result ≡ is_of group (head_at k (part 2 (cells * 10) ws.now)) }
{
    let at = HEADS_AT + k * HEAD_WIDTH;
    ws[at] != 0 && ws[at + 1] == group
}

// The cell of a group.
fn cell_of(ws: &[u64], cells: usize, group: u64) -> Option<usize>
    requires { length ws.now ≡ 2 + cells * 218 }
    ensures { FirstOf (is_of group) cells (part 2 (cells * 10) ws.now) result }
{
    (0..cells).find(|k| is_of(ws, cells, group, *k))
}

// Whether cell `k` is free.
#[tactic(auto, using(crate::proofs::Finding::free_is))]
fn is_free(ws: &[u64], cells: usize, k: usize) -> bool
    requires { (length ws.now ≡ 2 + cells * 218) × (k < cells) }
    ensures { result ≡ is_free_cell (head_at k (part 2 (cells * 10) ws.now)) }
{
    ws[HEADS_AT + k * HEAD_WIDTH] == 0
}

// The first free cell.
fn free_cell(ws: &[u64], cells: usize) -> Option<usize>
    requires { length ws.now ≡ 2 + cells * 218 }
    ensures { FirstOf is_free_cell cells (part 2 (cells * 10) ws.now) result }
{
    (0..cells).find(|k| is_free(ws, cells, *k))
}

// Where a group waits.
pub fn find(ws: &[u64], cells: usize, group: u64) -> Slot
    requires { length ws.now ≡ 2 + cells * 218 }
    ensures { Found group cells (part 2 (cells * 10) ws.now) result }
{
    if let Some(k) = cell_of(ws, cells, group) {
        return Slot::At(k);
    }
    match free_cell(ws, cells) {
        Some(k) => Slot::Free(k),
        None => Slot::Full,
    }
}

// What becomes of a part with a status and a first file, by the status and the last file of the newest part.
fn step_of(status: AtomicGroupStatus, start: u64, old: AtomicGroupStatus, last: u64) -> Step
    ensures { result ≡ step_by (status_as status) start (status_as old) last }
{
    match (status, old) {
        (AtomicGroupStatus::Begin, AtomicGroupStatus::End) => Step::Wait(Form::Front),
        (AtomicGroupStatus::Begin, _) => Step::Wait(Form::Replace),
        (_, AtomicGroupStatus::End) => Step::Drop,
        _ if start < last => Step::Back,
        (AtomicGroupStatus::End, AtomicGroupStatus::Begin) => Step::Finish,
        _ => Step::Wait(Form::Join),
    }
}

// The same for the newest part of cell `k`.
#[tactic(auto, using(crate::proofs::Finding::step_is))]
pub fn step_at(ws: &[u64], cells: usize, k: usize, new: PartHead) -> Step
    requires { (length ws.now ≡ 2 + cells * 218) × (k < cells) }
    ensures { result ≡ step_of new (head_at k (part 2 (cells * 10) ws.now)) }
{
    let at = HEADS_AT + k * HEAD_WIDTH;
    let status = AtomicGroupStatus::from(new.status);
    let old = AtomicGroupStatus::from(ws[at + 3]);
    step_of(status, new.start, old, ws[at + 5])
}
