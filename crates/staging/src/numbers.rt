// The numbers of the groups that may get a table: those of the older and of the newer stretches, of the newer tombstones and of the
// newer waiting parts.
ghost use Rattle.std.specs.Prelude.{◌≡◌, ◌≤◌, ◌<◌, length, get_or};
ghost use Rattle.staging.specs.Modes.{stretch_number, tombstone_number, waiting_number, number_at, numbers_of};

use contexts::{WAITING_FROM, WAITING_TO};
use groups::SLOTS;
use lists::MAX_TOMBSTONES;
use log_batch::open::ITEM_WIDTH;
use room::{CELLS, HEAD_WIDTH, HEADS_AT};
use stretch::STRETCH;

// How many places there are: the older stretches, the newer ones, the newer tombstones, the newer cells of waiting parts.
pub const PLACES: usize = WAITING_PLACES + CELLS;

// Where those of the waiting parts begin.
const WAITING_PLACES: usize = 2 * SLOTS + MAX_TOMBSTONES;

// The group of stretch k, if it is used.
#[tactic(auto, unfolding(crate::specs::Modes::numbers_of, crate::specs::Modes::stretch_number, stretch::specs::Stretch::is_used, stretch::specs::Stretch::group_in), using(crate::proofs::NumberWays::first_is, crate::proofs::NumberWays::second_is))]
fn stretch_number(xs: &[u64], k: usize) -> Option<u64>
    requires { (k < 8) × (9376 ≤ length xs.now) }
    ensures { numbers_of result ≡ stretch_number k xs.now }
{
    let at = k * STRETCH;
    if xs[at] == 1 { Some(xs[at + 1]) } else { None }
}

// The group of tombstone j, if there are so many.
#[tactic(auto, unfolding(crate::specs::Modes::numbers_of, crate::specs::Modes::tombstone_number))]
fn tombstone_number(ys: &[u64], j: usize) -> Option<u64>
    requires { (j < 64) × (643 ≤ length ys.now) }
    ensures { numbers_of result ≡ tombstone_number j ys.now }
{
    let count = ys[lists::TOMBSTONES_AT] as usize;
    if j < count {
        Some(ys[lists::ROWS_FROM + j * ITEM_WIDTH])
    } else {
        None
    }
}

// The group of cell k of a room, if it has parts.
#[tactic(auto, unfolding(crate::specs::Modes::numbers_of, crate::specs::Modes::waiting_number))]
fn waiting_number(ws: &[u64], k: usize) -> Option<u64>
    requires { (k < 16) × (length ws.now ≡ 3490) }
    ensures { numbers_of result ≡ waiting_number k ws.now }
{
    let at = HEADS_AT + k * HEAD_WIDTH;
    if ws[at] == 0 { None } else { Some(ws[at + 1]) }
}

// The number at place i: first the older stretches, then the newer ones, the newer tombstones and the newer waiting parts.
#[tactic(auto, using(crate::proofs::NumberWays::older_number, crate::proofs::NumberWays::newer_number, crate::proofs::NumberWays::of_tombstone, crate::proofs::NumberWays::of_waiting))]
pub fn number_at(xs: &[u64], ys: &[u64], i: usize) -> Option<u64>
    requires i_bound { i < 96 }
    requires in_bounds { (9376 ≤ length xs.now) × (13509 ≤ length ys.now) }
    ensures { numbers_of result ≡ number_at xs.now ys.now i }
{
    if i < SLOTS {
        return stretch_number(xs, i);
    }
    if i < 2 * SLOTS {
        return stretch_number(ys, i - SLOTS);
    }
    if i < WAITING_PLACES {
        return tombstone_number(&ys[groups::NUMBERS..], i - 2 * SLOTS);
    }
    waiting_number(&ys[WAITING_FROM..WAITING_TO], i - WAITING_PLACES)
}
