// The limits of what waits in a room.
ghost use Rattle.std.specs.Prelude.{List, ◌≡◌, ℕ, length};
ghost use Rattle.rules.specs.Context.{waiting_fits};
ghost use Rattle.room.specs.Layout.{waiting_of, RoomWf};

use room::{CELLS, MAX_ENTRIES, MAX_GROUPS, MAX_ITEMS};
use waiting::count_used;

// Whether what waits in a room passes no limit.
#[tactic(auto, using(crate::proofs::LimitWays::by_counts))]
pub fn room_fits(ws: &[u64]) -> bool
    requires { length ws.now ≡ 3490 }
    ensures { (vs : List ℕ) → RoomWf 16 ws.now vs → result ≡ waiting_fits (waiting_of ws.now vs) }
{
    count_used(ws, CELLS) <= MAX_GROUPS
        && ws[0] as usize <= MAX_ITEMS
        && ws[1] as usize <= MAX_ENTRIES
}
