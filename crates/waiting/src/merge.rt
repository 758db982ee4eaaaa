// A part of another room that comes to the room of a context, as a merge has it: no limit is judged.
ghost use Rattle.std.specs.Prelude.{◌≡◌, ◌*◌};
ghost use Rattle.cells.specs.Part.{part};
ghost use Rattle.room.specs.Layout.{context_cells, RoomWf};
ghost use Rattle.waiting.specs.Steps.{AtCell};
ghost use Rattle.waiting.specs.Forms.{FormAt, part_with};
ghost use Rattle.waiting.specs.Merges.{MergedAs, RoomFor};

use crate::find::{find, step_at};
use crate::forms::move_form;
use crate::moves::PartItems;
use crate::{Form, PartHead, Step};
use cells::Slot;
use pipe_log::Cause;
use room::{CELLS, take_part};

// Puts the part into cell `k`.
#[tactic(auto, using(crate::proofs::Merging::joined_form))]
fn join_form(
    ws: &mut [u64],
    vs: &mut [u8],
    k: usize,
    form: Form,
    group: u64,
    new: PartHead,
    its: &PartItems,
) -> Result<Option<usize>, Cause>
    requires room_wf { RoomWf context_cells ws.old vs.old }
    requires form_at { FormAt form group context_cells (part 2 (context_cells * 10) ws.old) k new }
    requires room_for { RoomFor group its.now ws.old vs.old }
    ensures { MergedAs group (part_with new its.now) ws.old vs.old result ws.new vs.new }
{
    move_form(ws, vs, k, form, group, new, its);
    Ok(None)
}

// The part comes to cell `k`, which has parts of its group.
#[tactic(auto, using(crate::specs::FormLaws::form_here, crate::proofs::Merging::has_parts, crate::proofs::Merging::joined_drop, crate::proofs::Merging::joined_finish, crate::proofs::Merging::joined_back))]
fn join_at(
    ws: &mut [u64],
    vs: &mut [u8],
    k: usize,
    group: u64,
    new: PartHead,
    its: &PartItems,
) -> Result<Option<usize>, Cause>
    requires room_wf { RoomWf context_cells ws.old vs.old }
    requires at_cell { AtCell group context_cells (part 2 (context_cells * 10) ws.old) k }
    requires room_for { RoomFor group its.now ws.old vs.old }
    ensures { MergedAs group (part_with new its.now) ws.old vs.old result ws.new vs.new }
{
    match step_at(ws, CELLS, k, new) {
        Step::Wait(form) => join_form(ws, vs, k, form, group, new, its),
        Step::Drop => Ok(None),
        Step::Finish => {
            take_part(ws, vs, CELLS, k);
            Ok(Some(k))
        }
        Step::Back => Err(Cause::FilesGoBack),
    }
}

// A part of another room comes to the room of a context, where there are rows for it, and a cell if its group has none. A part that it
// finishes is taken out.
#[tactic(auto, using(crate::proofs::Merging::cell_left), unfolding(crate::specs::Steps::Found))]
pub fn accept_part(
    ws: &mut [u64],
    vs: &mut [u8],
    group: u64,
    new: PartHead,
    its: &PartItems,
) -> Result<Option<usize>, Cause>
    requires room_wf { RoomWf context_cells ws.old vs.old }
    requires room_for { RoomFor group its.now ws.old vs.old }
    ensures { MergedAs group (part_with new its.now) ws.old vs.old result ws.new vs.new }
{
    match find(ws, CELLS, group) {
        Slot::At(k) => join_at(ws, vs, k, group, new, its),
        Slot::Free(k) => {
            let form = Form::First;
            join_form(ws, vs, k, form, group, new, its)
        }
        Slot::Full => unreachable!(),
    }
}
