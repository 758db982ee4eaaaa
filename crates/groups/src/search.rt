// Where a group stands.
ghost use Rattle.std.specs.Prelude.{◌≤◌, length};
ghost use Rattle.groups.specs.Area.{Found};

use crate::{SLOTS, Slot};
use stretch::STRETCH;

// Looks for a group from the slot that its mixed number points to, through all eight in turn. A free stretch is the first one on the
// way, so that a group that is made there is soon found again.
pub fn find(xs: &[u64], group: u64) -> Slot
    requires { 9376 ≤ length xs.now }
    ensures { Found group xs.now result }
{
    let start = util::slot_index(group) % SLOTS;
    let mut free = None;
    for i in 0..SLOTS {
        let k = (start + i) % SLOTS;
        let at = k * STRETCH;
        if xs[at] != 1 {
            free = free.or(Some(k));
        } else if xs[at + 1] == group {
            return Slot::At(k);
        }
    }
    match free {
        None => Slot::Full,
        Some(k) => Slot::Free(k),
    }
}
