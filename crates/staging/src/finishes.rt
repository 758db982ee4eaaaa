// A part that a newer one finishes: the items of both replayed on the work table, and the span set.
ghost use Rattle.std.specs.Prelude.{List, ◌++◌, ◌≡◌, ℕ, ◌≤◌, length, get_or, drop};
ghost use Rattle.std.specs.Prelude.{Some};
ghost use Rattle.cells.specs.Part.{part};
ghost use Rattle.maps.specs.Maps.{lookup, numbers};
ghost use Rattle.rules.specs.Causes.{Ok, and_then};
ghost use Rattle.rules.specs.Table.{made, spanned};
ghost use Rattle.rules_by_group.specs.Group.{replayed_items, finish_with, finish_table};
ghost use Rattle.stores.specs.Tags.{items_with};
ghost use Rattle.room.specs.Layout.{tagged, RoomWf};
ghost use Rattle.groups.specs.Area.{groups_of};
ghost use Rattle.contexts.specs.Contexts.{context_of};
ghost use Rattle.worktable.specs.Work.{work_in, Wf};
ghost use Rattle.worktable.specs.Calls.{Ends};
ghost use Rattle.parts.specs.Finishings.{has_items};
ghost use Rattle.staging.specs.Replays.{Replayable};
ghost use Rattle.staging.specs.Finishings.{finished_at, PartsGiven, ending_items, ending_span, EndingGiven};
ghost use Rattle.staging.specs.Works.{Loaded, WorkedAs};

use crate::replays::replay_part;
use contexts::{WAITING_BYTES_FROM, WAITING_BYTES_TO, WAITING_FROM, WAITING_TO};
use parts::{Ending, find_finishing, has_items};
use pipe_log::Cause;
use worktable::{WORK_AT, WORK_BYTES_AT};

// Copies the room of the waiting parts.
pub fn copy_room(xs: &[u64], bs: &[u8], ws: &mut [u64], vs: &mut [u8])
    requires { (length xs.now ≡ 17231) × (length bs.now ≡ 38912) × (length ws.old ≡ 3490) × (length vs.old ≡ 8192) }
    ensures { (ws.new ≡ part 10019 3490 xs.now) × (vs.new ≡ part 20480 8192 bs.now) }
{
    ws.copy_from_slice(&xs[WAITING_FROM..WAITING_TO]);
    vs.copy_from_slice(&bs[WAITING_BYTES_FROM..WAITING_BYTES_TO]);
}

// Replays the items of the older room that have the tag. They are copied first: the work table stands in the same area.
fn replay_older(xs: &mut [u64], bs: &mut [u8], tag: u64)
    requires xs_len { (length xs.old ≡ 17231) × (length bs.old ≡ 38912) }
    requires room_wf { RoomWf 16 (part 10019 3490 xs.old) (part 20480 8192 bs.old) }
    requires wf { Wf (drop 13509 xs.old) (drop 28672 bs.old) }
    requires replayable { Replayable (items_with tag (tagged (part 10019 3490 xs.old) (part 20480 8192 bs.old))) (work_in (drop 13509 xs.old) (drop 28672 bs.old)) }
    ensures { Loaded (replayed_items (items_with tag (tagged (part 10019 3490 xs.old) (part 20480 8192 bs.old))) (work_in (drop 13509 xs.old) (drop 28672 bs.old))) xs.old bs.old xs.new bs.new }
{
    let mut ws = [0u64; room::NUMBERS];
    let mut vs = [0u8; room::BYTES];
    copy_room(xs, bs, &mut ws, &mut vs);
    replay_part(&mut xs[WORK_AT..], &mut bs[WORK_BYTES_AT..], &ws, &vs, tag);
}

// Replays the items of the newer part, and sets the span.
fn close_part(
    p: &mut [u64],
    b: &mut [u8],
    ys: &[u64],
    cs: &[u8],
    ending: Ending,
) -> Result<(), Cause>
    requires wf { Wf p.old b.old }
    requires ys_len { (length ys.now ≡ 17231) × (length cs.now ≡ 38912) × RoomWf 16 (part 10019 3490 ys.now) (part 20480 8192 cs.now) }
    requires replayable { Replayable (items_with ending.newer (tagged (part 10019 3490 ys.now) (part 20480 8192 cs.now))) (work_in p.old b.old) }
    ensures { Ends (and_then (spanned (ending_span ending) (made (replayed_items (items_with ending.newer (tagged (part 10019 3490 ys.now) (part 20480 8192 cs.now))) (work_in p.old b.old)))) (λ t. Ok (Some t))) result p.new b.new }
{
    replay_part(
        p,
        b,
        &ys[WAITING_FROM..WAITING_TO],
        &cs[WAITING_BYTES_FROM..WAITING_BYTES_TO],
        ending.newer,
    );
    worktable::set_span(p, ending.start, ending.end)
}

// Whether the parts have an item at all.
#[tactic(auto, using(crate::proofs::FinishingWays::room_lent, crate::proofs::FinishingWays::any_front))]
fn any_item(xs: &[u64], ys: &[u64], ending: Ending) -> bool
    requires xs_len { (length xs.now ≡ 17231) × (length ys.now ≡ 17231) }
    requires xs_bound { (get_or (part 10019 3490 xs.now) 0 0 ≤ 128) × (get_or (part 10019 3490 ys.now) 0 0 ≤ 128) }
    ensures { (bs cs : List ℕ) → RoomWf 16 (part 10019 3490 xs.now) (part 20480 8192 bs) → RoomWf 16 (part 10019 3490 ys.now) (part 20480 8192 cs) → result ≡ has_items (ending_items ending xs.now bs ys.now cs) }
{
    has_items(&xs[WAITING_FROM..WAITING_TO], ending.older)
        || has_items(&ys[WAITING_FROM..WAITING_TO], ending.newer)
}

// Replays the items of both parts and sets the span, if there is an item.
fn finish_with(
    xs: &mut [u64],
    bs: &mut [u8],
    ys: &[u64],
    cs: &[u8],
    ending: Ending,
) -> Result<(), Cause>
    requires { EndingGiven ending xs.old bs.old ys.now cs.now }
    ensures { WorkedAs (finish_with (ending_span ending) (ending_items ending xs.old bs.old ys.now cs.now) (work_in (drop 13509 xs.old) (drop 28672 bs.old))) xs.old bs.old result xs.new bs.new }
{
    if !any_item(xs, ys, ending) {
        return Ok(());
    }
    replay_older(xs, bs, ending.older);
    close_part(&mut xs[WORK_AT..], &mut bs[WORK_BYTES_AT..], ys, cs, ending)
}

// Replays what the newer parts of a group finish on its work table.
pub fn finish_part(
    xs: &mut [u64],
    bs: &mut [u8],
    ys: &[u64],
    cs: &[u8],
    group: u64,
) -> Result<(), Cause>
    requires { PartsGiven group xs.old bs.old ys.now cs.now }
    ensures { WorkedAs (finish_table (finished_at group (context_of ys.now cs.now) (context_of xs.old bs.old)) (lookup numbers group (groups_of xs.old bs.old))) xs.old bs.old result xs.new bs.new }
{
    match find_finishing(
        &xs[WAITING_FROM..WAITING_TO],
        &ys[WAITING_FROM..WAITING_TO],
        group,
    ) {
        Some(ending) => finish_with(xs, bs, ys, cs, ending),
        None => Ok(()),
    }
}
