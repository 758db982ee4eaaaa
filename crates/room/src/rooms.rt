// A room in which nothing waits.
ghost use Rattle.std.specs.Prelude.{List, ◌≡◌, ℕ, ◌+◌, ◌*◌, length};
ghost use Rattle.room.specs.Layout.{Empty};

use crate::{HEAD_WIDTH, HEADS_AT};

// Makes a room of so many cells one in which nothing waits.
pub fn clear(ws: &mut [u64], cells: usize)
    requires { length ws.old ≡ 2 + cells * 218 }
    ensures { (vs : List ℕ) → length vs ≡ cells * 512 → Empty cells ws.new vs }
{
    ws[0] = 0;
    ws[1] = 0;
    for k in 0..cells {
        ws[HEADS_AT + k * HEAD_WIDTH] = 0;
    }
}
