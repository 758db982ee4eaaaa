// The newer waiting parts accepted in the older room.
ghost use Rattle.std.specs.Prelude.{[], ◌∷◌, ◌≡◌, ◌+◌, ◌≤◌, ◌<◌, get_or};
ghost use Rattle.rules_by_group.specs.Stage.{accept_parts_of, waiting_after};
ghost use Rattle.room.specs.Layout.{waiting_of, RoomWf, ContextRoom};
ghost use Rattle.waiting.specs.Merges.{items_from, RoomFor};
ghost use Rattle.parts.specs.Takings.{newer_part, TakenAs, newer_cell, RoomForAll, PartsTaken};

use crate::walks::{group_at, next_cell, part_head};
use pipe_log::Cause;
use room::{HEAD_WIDTH, HEADS_AT, NEWEST_AT, OLDER_AT};
use waiting::{PartItems, accept_part};

// Accepts the newer part of a group whose tag is number `at` of the newer room.
#[tactic(auto, using(crate::proofs::TakingWays::part_taken))]
fn accept_at(
    ws: &mut [u64],
    vs: &mut [u8],
    us: &[u64],
    ds: &[u8],
    group: u64,
    at: usize,
) -> Result<(), Cause>
    requires room_wf { RoomWf 16 ws.old vs.old }
    requires room_wf_2 { RoomWf 16 us.now ds.now }
    requires at_bound { at ≤ 162 }
    requires room_for { RoomFor group (items_from us.now ds.now (get_or us.now at 0)) ws.old vs.old }
    ensures { TakenAs group (newer_part at us.now ds.now) ws.old vs.old result ws.new vs.new }
{
    let new = part_head(us, at);
    let its = PartItems {
        numbers: us,
        bytes: ds,
        tag: us[at],
    };
    accept_part(ws, vs, group, new, &its)?;
    Ok(())
}

// Accepts the parts of the newer cell k, the oldest first.
#[tactic(auto, using(crate::proofs::TakingWays::one_accepted, crate::proofs::TakingWays::newest_room, crate::proofs::TakingWays::two_accepted))]
fn accept_cell(ws: &mut [u64], vs: &mut [u8], us: &[u64], ds: &[u8], k: usize) -> Result<(), Cause>
    requires room_wf { RoomWf 16 ws.old vs.old }
    requires room_wf_2 { RoomWf 16 us.now ds.now }
    requires k_bound { k < 16 }
    requires room_for_all { RoomForAll (newer_cell k us.now ds.now ∷ []) (waiting_of ws.old vs.old) }
    ensures { PartsTaken (accept_parts_of (newer_cell k us.now ds.now) (waiting_of ws.old vs.old)) result ws.new vs.new }
{
    let at = HEADS_AT + k * HEAD_WIDTH;
    let group = us[at + 1];
    if us[at] == 1 {
        return accept_at(ws, vs, us, ds, group, at + NEWEST_AT);
    }
    accept_at(ws, vs, us, ds, group, at + OLDER_AT)?;
    accept_at(ws, vs, us, ds, group, at + NEWEST_AT)
}

// Accepts the newer waiting parts in the older room, groups ascending, the oldest part of a group first.
#[tactic(auto, using(crate::proofs::WalkWays::fewer, crate::proofs::TakingWays::taken_all))]
pub fn take_parts(ws: &mut [u64], vs: &mut [u8], us: &[u64], ds: &[u8]) -> Result<(), Cause>
    requires context_room { ContextRoom ws.old vs.old }
    requires context_room_2 { ContextRoom us.now ds.now }
    ensures { PartsTaken (waiting_after (waiting_of us.now ds.now) (waiting_of ws.old vs.old)) result ws.new vs.new }
{
    let mut bound = None;
    while let Some(k) = next_cell(us, bound) {
        accept_cell(ws, vs, us, ds, k)?;
        bound = Some(group_at(us, k));
    }
    Ok(())
}
