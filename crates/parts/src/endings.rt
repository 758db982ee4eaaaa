// What a merge finishes of a group: the oldest newer part may finish the newest older one.
ghost use Rattle.std.specs.Prelude.{true, List, ◌≡◌, ℕ, ◌+◌, ◌*◌, ◌≤◌, ◌<◌, length, get_or, Some};
ghost use Rattle.cells.specs.Part.{part};
ghost use Rattle.maps.specs.Maps.{lookup, numbers};
ghost use Rattle.rules_by_group.specs.Group.{finished_of};
ghost use Rattle.stores.specs.Tags.{Tagged, items_with};
ghost use Rattle.room.specs.Rooms.{head_at, parts_of};
ghost use Rattle.room.specs.Layout.{waiting_of, tagged, RoomWf};
ghost use Rattle.waiting.specs.Steps.{AtCell};
ghost use Rattle.parts.specs.Finishings.{finished_as, oldest_at, is_finish, has_items};

use crate::Ending;
use crate::walks::part_head;
use cells::Slot;
use room::{CELLS, HEAD_WIDTH, HEADS_AT, NEWEST_AT, OLDER_AT};
use waiting::Step;
use waiting::find::{find, step_at};

// Whether a step finishes a part.
#[tactic(auto, unfolding(crate::specs::Finishings::is_finish))]
fn is_finish(step: Step) -> bool
    ensures { result ≡ is_finish step }
{
    matches!(step, Step::Finish)
}

// Where the tag of the oldest part of cell j stands; status, start and end stand behind it.
#[tactic(auto, using(crate::proofs::PartWays::oldest_one, crate::proofs::PartWays::oldest_two))]
fn oldest_at(us: &[u64], j: usize) -> usize
    requires { (length us.now ≡ 3490) × (j < 16) }
    ensures value { result ≡ 2 + j * 10 + oldest_at (head_at j (part 2 160 us.now)) }
    ensures upper_bound { result ≤ 2 + j * 10 + 6 }
{
    let at = HEADS_AT + j * HEAD_WIDTH;
    let count = us[at];
    if count == 1 {
        return at + NEWEST_AT;
    }
    at + OLDER_AT
}

// What the oldest part of the newer cell j finishes in the older cell k.
#[tactic(auto, using(crate::proofs::PartWays::none_finishes, crate::proofs::PartWays::one_finishes))]
fn finishing_by(ws: &[u64], us: &[u64], k: usize, j: usize) -> Option<Ending>
    requires { (length ws.now ≡ 3490) × (length us.now ≡ 3490) × (k < 16) × (j < 16) }
    ensures { (xs ys : List Tagged) → finished_of (Some (parts_of (head_at j (part 2 160 us.now)) ys)) (Some (parts_of (head_at k (part 2 160 ws.now)) xs)) ≡ finished_as result xs ys }
{
    let at = oldest_at(us, j);
    let new = part_head(us, at);
    if !is_finish(step_at(ws, CELLS, k, new)) {
        return None;
    }
    let cell = HEADS_AT + k * HEAD_WIDTH;
    Some(Ending {
        older: ws[cell + NEWEST_AT],
        newer: us[at],
        start: ws[cell + 4],
        end: new.end,
    })
}

// What the parts of the newer cell j finish in the older room.
#[tactic(auto, using(crate::proofs::PartWays::older_there, crate::proofs::PartWays::older_absent), unfolding(waiting::specs::Steps::Found))]
fn finishing_at(ws: &[u64], us: &[u64], group: u64, j: usize) -> Option<Ending>
    requires { (length ws.now ≡ 3490) × (length us.now ≡ 3490) × (j < 16) }
    ensures { (vs : List ℕ) (ys : List Tagged) → RoomWf 16 ws.now vs → finished_of (Some (parts_of (head_at j (part 2 160 us.now)) ys)) (lookup numbers group (waiting_of ws.now vs)) ≡ finished_as result (tagged ws.now vs) ys }
{
    match find(ws, CELLS, group) {
        Slot::At(k) => finishing_by(ws, us, k, j),
        Slot::Free(_) => None,
        Slot::Full => None,
    }
}

// What the parts of a group in the newer room finish in the older one.
#[tactic(auto, using(crate::proofs::PartWays::newer_there, crate::proofs::PartWays::newer_absent), unfolding(waiting::specs::Steps::Found))]
pub fn find_finishing(ws: &[u64], us: &[u64], group: u64) -> Option<Ending>
    requires { (length ws.now ≡ 3490) × (length us.now ≡ 3490) }
    ensures { (vs ds : List ℕ) → RoomWf 16 ws.now vs → RoomWf 16 us.now ds → finished_of (lookup numbers group (waiting_of us.now ds)) (lookup numbers group (waiting_of ws.now vs)) ≡ finished_as result (tagged ws.now vs) (tagged us.now ds) }
{
    match find(us, CELLS, group) {
        Slot::At(j) => finishing_at(ws, us, group, j),
        Slot::Free(_) => None,
        Slot::Full => None,
    }
}

// Whether a room has an item with the tag.
pub fn has_items(ws: &[u64], tag: u64) -> bool
    requires { (length ws.now ≡ 3490) × (get_or ws.now 0 0 ≤ 128) }
    ensures { (vs : List ℕ) → RoomWf 16 ws.now vs → result ≡ has_items (items_with tag (tagged ws.now vs)) }
{
    let from = HEADS_AT + CELLS * room::TAGS_FROM;
    ws[from..from + ws[0] as usize].contains(&tag)
}
