// An atomic group that a batch finishes: the items that waited and the batch's own are carried out, the span is set, and the part
// that waited is taken out.
ghost use Rattle.std.specs.Prelude.{true, List, ◌∷◌, ◌≡◌, ℕ, ◌+◌, ◌*◌, ◌≤◌, ◌<◌, length, get_or};
ghost use Rattle.std.specs.Prelude.{Some};
ghost use Rattle.maps.specs.Lists.{every};
ghost use Rattle.maps.specs.MapLaws.{pair};
ghost use Rattle.rules.specs.Items.{Rewrite, placed_from, replay_rewrite};
ghost use Rattle.rules.specs.Context.{Part, context};
ghost use Rattle.rules.specs.Waiting.{replay_marked};
ghost use Rattle.rules_by_group.specs.Kept.{is_passed};
ghost use Rattle.rules_by_group.specs.Kept.{KeptAt};
ghost use Rattle.log_batch.specs.Batch.{items_in};
ghost use Rattle.groups.specs.Undo.{Undoable};
ghost use Rattle.room.specs.Rooms.{cell_of};
ghost use Rattle.room.specs.Batches.{unmarked};
ghost use Rattle.room.specs.Parts.{part_for};
ghost use Rattle.room.specs.Layout.{tagged, head_part};
ghost use Rattle.waiting.specs.Accepts.{Finishing};
ghost use Rattle.contexts.specs.Contexts.{waiting_numbers, waiting_bytes, context_of, Formed, Answered};
ghost use Rattle.batches.specs.Runs.{Keeping};
ghost use Rattle.writes.specs.Finishes.{waiting_count, stored_from, HasAny, both_items, both_run, Ended, finish_stored, AnsweredKept, TookWaiting};

use crate::spans::set_span;
use crate::stored::{holds_any, run_own, run_stored};
use batches::go_back;
use contexts::{WAITING_BYTES_FROM, WAITING_FROM};
use log_batch::RewriteReplay;
use log_batch::mark::Mark;
use pipe_log::Refusal;
use room::NEWEST_AT;

// Where a cell has the tag and the start of its newest part.
const TAG: usize = NEWEST_AT;

const START: usize = NEWEST_AT + 2;

// Whether a finished group has an item, one that waited with the tag or one of the batch's own.
fn has_items(xs: &[u64], tag: u64, replay: &RewriteReplay) -> bool
    requires { (length xs.now ≡ 17231) × (waiting_count xs.now ≤ 128) }
    ensures { (at : ℕ) (bs : List ℕ) → Formed xs.now bs → HasAny result (both_items at tag (items_in replay.now.batch) xs.now bs) }
{
    if holds_any(xs, tag) {
        return true;
    }
    room::count_batch(replay).items != 0
}

// Carries out the items that waited with the tag, then the batch's own, and sets the span from the part's start to the batch's file.
fn run_both(
    xs: &mut [u64],
    bs: &mut [u8],
    tag: u64,
    start: u64,
    mark: Mark,
    seq: u64,
    replay: &RewriteReplay,
) -> Result<(), Refusal>
    requires formed { Formed xs.old bs.old }
    requires undoable { Undoable xs.old bs.old }
    requires bs_value { every is_passed (stored_from tag 0 xs.old bs.old) ≡ true }
    requires keeping { Keeping replay_rewrite (context_of xs.old bs.old) }
    ensures { Ended (both_run mark.at tag mark.raft_group_id (record { start = start; end = seq }) (items_in replay.now.batch) xs.old bs.old) xs.old bs.old result xs.new bs.new }
{
    let at = mark.at;
    run_stored(xs, bs, tag, at)?;
    run_own(xs, bs, replay)?;
    set_span(xs, bs, mark.raft_group_id, start, seq, at)
}

// The same on an area between calls, which goes back if it is refused; nothing is done if there is no item.
fn finish_items(
    xs: &mut [u64],
    bs: &mut [u8],
    tag: u64,
    start: u64,
    mark: Mark,
    seq: u64,
    replay: &RewriteReplay,
) -> Result<(), Refusal>
    requires formed { Formed xs.old bs.old }
    requires bs_value { every is_passed (stored_from tag 0 xs.old bs.old) ≡ true }
    requires keeping { Keeping replay_rewrite (context_of xs.old bs.old) }
    ensures { AnsweredKept (finish_stored mark.at tag mark.raft_group_id (record { start = start; end = seq }) (items_in replay.now.batch) xs.old bs.old) xs.old bs.old result xs.new bs.new }
{
    if !has_items(xs, tag, replay) {
        return Ok(());
    }
    let a = groups::NUMBERS;
    let counts = lists::counts_in(&xs[a..]);
    groups::begin(xs);
    let answer = run_both(xs, bs, tag, start, mark, seq, replay);
    if let Err(refusal) = answer {
        go_back(xs, bs, counts);
        return Err(refusal);
    }
    Ok(())
}

// Takes the newest part of cell k out of what waits.
fn take_waiting(xs: &mut [u64], bs: &mut [u8], k: usize)
    requires xs_len { (length xs.old ≡ 17231) × (length bs.old ≡ 38912) }
    requires formed { Formed xs.old bs.old }
    requires k_bound { (k < 16) × (0 < get_or (waiting_numbers xs.old) (2 + k * 10) 0) }
    ensures { (g : ℕ) (p : Part) (ps : List Part) → cell_of (head_part k (waiting_numbers xs.old) (waiting_bytes bs.old)) (tagged (waiting_numbers xs.old) (waiting_bytes bs.old)) ≡ Some (pair g (p ∷ ps)) → TookWaiting g ps xs.old bs.old xs.new bs.new }
{
    let a = WAITING_FROM;
    let e = a + room::NUMBERS;
    let c = WAITING_BYTES_FROM;
    let d = c + room::BYTES;
    room::take_part(&mut xs[a..e], &mut bs[c..d], room::CELLS, k);
}

// Number i of cell k of the waiting parts.
fn head_number(xs: &[u64], k: usize, i: usize) -> u64
    requires { (length xs.now ≡ 17231) × (k < 16) × (i < 10) }
    ensures { (vs : List ℕ) → result ≡ get_or (head_part k (waiting_numbers xs.now) vs) i 0 }
{
    xs[WAITING_FROM + room::HEADS_AT + k * room::HEAD_WIDTH + i]
}

// Finishes the newest part of cell k by a marked batch that passed the checks.
pub fn finish(
    xs: &mut [u64],
    bs: &mut [u8],
    k: usize,
    mark: Mark,
    seq: u64,
    replay: &RewriteReplay,
) -> Result<(), Refusal>
    requires formed { Formed xs.old bs.old }
    requires kept_at { KeptAt (context Rewrite) (context_of xs.old bs.old) }
    requires finishing { Finishing mark.raft_group_id (part_for mark.byte seq (unmarked (items_in replay.now.batch))) k (waiting_numbers xs.old) (waiting_bytes bs.old) }
    ensures { Answered (replay_marked (record { at = mark.at; group = mark.raft_group_id; byte = mark.byte }) seq (placed_from 0 (items_in replay.now.batch))) xs.old bs.old result xs.new bs.new }
{
    let tag = head_number(xs, k, TAG);
    let start = head_number(xs, k, START);
    finish_items(xs, bs, tag, start, mark, seq, replay)?;
    take_waiting(xs, bs, k);
    Ok(())
}
