// How a part that waits is put into a cell: the tag and the head that it gets, and the items that leave for it.
#![tactic(auto, unfolding(crate::specs::Forms::form_tag, crate::specs::Forms::form_head, room::specs::Parts::first_head))]

ghost use Rattle.std.specs.Prelude.{List, ◌≡◌, ℕ, ◌+◌, ◌*◌, ◌≤◌, ◌<◌, length, get_or, Some};
ghost use Rattle.cells.specs.Part.{part};
ghost use Rattle.log_batch.specs.Batch.{items_in};
ghost use Rattle.room.specs.Rooms.{head_at, newest_tag, waiting_in, waiting_items, waiting_entries, other_tag};
ghost use Rattle.room.specs.Layout.{store_of, room_of, context_cells, RoomWf};
ghost use Rattle.room.specs.Batches.{unmarked};
ghost use Rattle.room.specs.Changes.{Became};
ghost use Rattle.room.specs.Parts.{front_head, renewed_head};
ghost use Rattle.waiting.specs.Steps.{form_parts};
ghost use Rattle.waiting.specs.Accepts.{parts_at};
ghost use Rattle.waiting.specs.Forms.{FormAt, with_part, form_tag, Tagging, joined_number, form_head, part_with, Freed};

use crate::moves::{PartItems, move_part};
use crate::{Form, PartHead};
use log_batch::RewriteReplay;
use log_batch::mark::AtomicGroupStatus;
use room::{CELLS, HEAD_WIDTH, HEADS_AT, NEWEST_AT, counts_in, take_out, write_part};
use stores::Store;

// The tag that the part gets.
pub fn form_tag(ws: &[u64], cells: usize, k: usize, form: Form) -> u64
    requires ws_len { (length ws.now ≡ 2 + cells * 218) × (k < cells) }
    requires tagging { Tagging form k (head_at k (part 2 (cells * 10) ws.now)) }
    ensures { result ≡ form_tag form k (head_at k (part 2 (cells * 10) ws.now)) }
{
    let tag = ws[HEADS_AT + k * HEAD_WIDTH + NEWEST_AT];
    match form {
        Form::First => k as u64 * 2,
        Form::Front => k as u64 * 4 + 1 - tag,
        Form::Replace | Form::Join => tag,
    }
}

// The head of cell `k` with a part in front of its newest one.
#[tactic(auto, using(crate::proofs::Forming::front_is))]
fn front_head(ws: &[u64], cells: usize, k: usize, tag: u64, new: PartHead) -> [u64; HEAD_WIDTH]
    requires ws_len { (length ws.now ≡ 2 + cells * 218) × (k < cells) }
    requires tag_value { tag ≡ other_tag k (newest_tag (head_at k (part 2 (cells * 10) ws.now))) }
    ensures { result ≡ front_head k new.status new.start new.end (head_at k (part 2 (cells * 10) ws.now)) }
{
    let at = HEADS_AT + k * HEAD_WIDTH;
    [
        2,
        ws[at + 1],
        tag,
        new.status,
        new.start,
        new.end,
        ws[at + 2],
        ws[at + 3],
        ws[at + 4],
        ws[at + 5],
    ]
}

// The head of cell `k` with other numbers of its newest part.
#[tactic(auto, using(crate::proofs::Forming::renewed_is))]
fn renewed_head(ws: &[u64], cells: usize, k: usize, new: PartHead) -> [u64; HEAD_WIDTH]
    requires { (length ws.now ≡ 2 + cells * 218) × (k < cells) }
    ensures { result ≡ renewed_head new.status new.start new.end (head_at k (part 2 (cells * 10) ws.now)) }
{
    let at = HEADS_AT + k * HEAD_WIDTH;
    [
        ws[at],
        ws[at + 1],
        ws[at + 2],
        new.status,
        new.start,
        new.end,
        ws[at + 6],
        ws[at + 7],
        ws[at + 8],
        ws[at + 9],
    ]
}

// The status of a joined part, as a number: an End that joins makes an End.
#[tactic(auto, using(crate::proofs::Forming::joined_middle, crate::proofs::Forming::joined_begin, crate::proofs::Forming::joined_end), unfolding(log_batch::specs::Judged::status_as))]
fn joined_number(old: u64, status: u64) -> u64
    ensures { result ≡ joined_number old status }
{
    match AtomicGroupStatus::from(status) {
        AtomicGroupStatus::Middle => old,
        AtomicGroupStatus::Begin | AtomicGroupStatus::End => status,
    }
}

// The head of cell `k` with a part joined to its newest one, whose start stays.
fn joined_head(ws: &[u64], cells: usize, k: usize, new: PartHead) -> [u64; HEAD_WIDTH]
    requires { (length ws.now ≡ 2 + cells * 218) × (k < cells) }
    ensures { result ≡ renewed_head (joined_number (get_or (head_at k (part 2 (cells * 10) ws.now)) 3 0) new.status) (get_or (head_at k (part 2 (cells * 10) ws.now)) 4 0) new.end (head_at k (part 2 (cells * 10) ws.now)) }
{
    let at = HEADS_AT + k * HEAD_WIDTH;
    let joined = PartHead {
        status: joined_number(ws[at + 3], new.status),
        start: ws[at + 4],
        end: new.end,
    };
    renewed_head(ws, cells, k, joined)
}

// The head that cell `k` gets.
pub fn form_head(
    ws: &[u64],
    cells: usize,
    k: usize,
    form: Form,
    tag: u64,
    group: u64,
    new: PartHead,
) -> [u64; HEAD_WIDTH]
    requires ws_len { (length ws.now ≡ 2 + cells * 218) × (k < cells) }
    requires tag_value { tag ≡ form_tag form k (head_at k (part 2 (cells * 10) ws.now)) }
    ensures { result ≡ form_head form k group new (head_at k (part 2 (cells * 10) ws.now)) }
{
    match form {
        Form::First => [1, group, tag, new.status, new.start, new.end, 0, 0, 0, 0],
        Form::Front => front_head(ws, cells, k, tag, new),
        Form::Replace => renewed_head(ws, cells, k, new),
        Form::Join => joined_head(ws, cells, k, new),
    }
}

// Takes out the items of a part that is replaced, and answers the counts of what is left.
pub fn free_items(ws: &mut [u64], vs: &mut [u8], cells: usize, form: Form, tag: u64) -> Store
    requires { RoomWf cells ws.old vs.old }
    ensures { Freed form (store_of ws.old) (room_of cells ws.old vs.old) tag result (room_of cells ws.new vs.new) }
{
    let store = counts_in(ws);
    match form {
        Form::Replace => take_out(ws, vs, cells, store, tag),
        Form::First | Form::Front | Form::Join => store,
    }
}

// Puts a part with the items of a batch into cell `k`, where there are rows for what waits with it.
#[tactic(auto, using(crate::proofs::Forming::tagging, crate::proofs::Forming::freed_rows))]
pub fn write_form(
    ws: &mut [u64],
    vs: &mut [u8],
    cells: usize,
    k: usize,
    form: Form,
    group: u64,
    new: PartHead,
    replay: &RewriteReplay,
)
    requires room_wf { RoomWf cells ws.old vs.old }
    requires form_at { FormAt form group cells (part 2 (cells * 10) ws.old) k new }
    requires vs_bound { (waiting_items (with_part form group (part_with new (unmarked (items_in replay.now.batch))) (waiting_in (store_of ws.old) (room_of cells ws.old vs.old))) ≤ cells * 8) × (waiting_entries (with_part form group (part_with new (unmarked (items_in replay.now.batch))) (waiting_in (store_of ws.old) (room_of cells ws.old vs.old))) ≤ cells * 16) }
    ensures { Became group (Some (form_parts form (parts_at group (waiting_in (store_of ws.old) (room_of cells ws.old vs.old))) (part_with new (unmarked (items_in replay.now.batch))))) (store_of ws.old) (room_of cells ws.old vs.old) (store_of ws.new) (room_of cells ws.new vs.new) }
{
    let tag = form_tag(ws, cells, k, form);
    let head = form_head(ws, cells, k, form, tag, group, new);
    let left = free_items(ws, vs, cells, form, tag);
    write_part(ws, vs, cells, k, &head, left, tag, replay);
}

// Puts a part of another room into cell `k` of a context's room, where there are rows for it.
#[tactic(auto, using(crate::proofs::Forming::tagging, crate::proofs::Forming::freed_rows))]
pub fn move_form(
    ws: &mut [u64],
    vs: &mut [u8],
    k: usize,
    form: Form,
    group: u64,
    new: PartHead,
    its: &PartItems,
)
    requires room_wf { RoomWf context_cells ws.old vs.old }
    requires form_at { FormAt form group context_cells (part 2 (context_cells * 10) ws.old) k new }
    requires vs_bound { (waiting_items (with_part form group (part_with new its.now) (waiting_in (store_of ws.old) (room_of context_cells ws.old vs.old))) ≤ context_cells * 8) × (waiting_entries (with_part form group (part_with new its.now) (waiting_in (store_of ws.old) (room_of context_cells ws.old vs.old))) ≤ context_cells * 16) }
    ensures { Became group (Some (form_parts form (parts_at group (waiting_in (store_of ws.old) (room_of context_cells ws.old vs.old))) (part_with new its.now))) (store_of ws.old) (room_of context_cells ws.old vs.old) (store_of ws.new) (room_of context_cells ws.new vs.new) }
{
    let tag = form_tag(ws, CELLS, k, form);
    let head = form_head(ws, CELLS, k, form, tag, group, new);
    let left = free_items(ws, vs, CELLS, form, tag);
    move_part(ws, vs, k, &head, left, tag, its);
}
