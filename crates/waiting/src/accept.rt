// A marked batch's part that comes to the room of a context.
ghost use Rattle.std.specs.Prelude.{◌≡◌, ◌+◌, ◌*◌, ◌<◌, get_or};
ghost use Rattle.cells.specs.Part.{part};
ghost use Rattle.log_batch.specs.Batch.{items_in};
ghost use Rattle.room.specs.Layout.{context_cells, ContextRoom};
ghost use Rattle.room.specs.Batches.{unmarked};
ghost use Rattle.waiting.specs.Steps.{AtCell};
ghost use Rattle.waiting.specs.Accepts.{AcceptedAs, TookFinished};
ghost use Rattle.waiting.specs.Forms.{FormAt, part_with};

use crate::find::{find, step_at};
use crate::forms::write_form;
use crate::limits::{counts_left, groups_with, within_limits};
use crate::{Form, PartHead, Step};
use cells::Slot;
use log_batch::RewriteReplay;
use pipe_log::Cause;
use room::{CELLS, count_batch, take_part};

// Puts a part with the items of a batch into cell `k`, unless a limit would be passed.
fn accept_form(
    ws: &mut [u64],
    vs: &mut [u8],
    k: usize,
    form: Form,
    group: u64,
    new: PartHead,
    replay: &RewriteReplay,
) -> Result<Option<usize>, Cause>
    requires context_room { ContextRoom ws.old vs.old }
    requires form_at { FormAt form group context_cells (part 2 (context_cells * 10) ws.old) k new }
    ensures { AcceptedAs group (part_with new (unmarked (items_in replay.now.batch))) ws.old vs.old result ws.new vs.new }
{
    let groups = groups_with(ws, CELLS, form);
    let left = counts_left(ws, CELLS, k, form);
    let more = count_batch(replay);
    if !within_limits(groups, left, more) {
        return Err(Cause::LimitPassed);
    }
    write_form(ws, vs, CELLS, k, form, group, new, replay);
    Ok(None)
}

// A part with the items of a batch comes to cell `k`, which has parts of its group.
#[tactic(auto, using(crate::specs::FormLaws::form_here, crate::proofs::Accepting::dropped, crate::proofs::Accepting::finished, crate::proofs::Accepting::went_back))]
fn accept_at(
    ws: &mut [u64],
    vs: &mut [u8],
    k: usize,
    group: u64,
    new: PartHead,
    replay: &RewriteReplay,
) -> Result<Option<usize>, Cause>
    requires context_room { ContextRoom ws.old vs.old }
    requires at_cell { AtCell group context_cells (part 2 (context_cells * 10) ws.old) k }
    ensures { AcceptedAs group (part_with new (unmarked (items_in replay.now.batch))) ws.old vs.old result ws.new vs.new }
{
    match step_at(ws, CELLS, k, new) {
        Step::Wait(form) => accept_form(ws, vs, k, form, group, new, replay),
        Step::Drop => Ok(None),
        Step::Finish => Ok(Some(k)),
        Step::Back => Err(Cause::FilesGoBack),
    }
}

// A part with the items of a batch comes to the room of a context. Within the limits a cell is free for a first part.
#[tactic(auto, using(crate::proofs::Accepting::never_full), unfolding(crate::specs::Steps::Found))]
pub fn accept_batch(
    ws: &mut [u64],
    vs: &mut [u8],
    group: u64,
    new: PartHead,
    replay: &RewriteReplay,
) -> Result<Option<usize>, Cause>
    requires { ContextRoom ws.old vs.old }
    ensures { AcceptedAs group (part_with new (unmarked (items_in replay.now.batch))) ws.old vs.old result ws.new vs.new }
{
    match find(ws, CELLS, group) {
        Slot::At(k) => accept_at(ws, vs, k, group, new, replay),
        Slot::Free(k) => {
            let form = Form::First;
            accept_form(ws, vs, k, form, group, new, replay)
        }
        Slot::Full => unreachable!(),
    }
}

// Takes out the newest part of cell `k`, which a part finished.
#[tactic(auto, using(crate::specs::FinishLaws::took_finished))]
pub fn take_finished(ws: &mut [u64], vs: &mut [u8], k: usize)
    requires context_room { ContextRoom ws.old vs.old }
    requires k_lt_context_cells { (k < context_cells) × (0 < get_or ws.old (2 + k * 10) 0) }
    ensures { TookFinished k ws.old vs.old ws.new vs.new }
{
    take_part(ws, vs, CELLS, k);
}
