// The groups that are worked so far stand in the spare stretches.
ghost use Rattle.std.specs.Prelude.{◌≡◌, ◌≤◌, length};
ghost use Rattle.staging.specs.Staging.{Begun, sealed_mark, Sealed};

use groups::SLOTS;
use stretch::STRETCH;

// The first number of a spare stretch that holds no group, and of one that holds one.
const NO_GROUP: u64 = 0;

const GROUP: u64 = 1;

// The marks by which `groups::undo` makes a stretch free, or the whole one that the spare stretch holds.
const FREE: u64 = 1;

const WHOLE: u64 = 3;

// Marks the spare stretches as holding no group.
#[tactic(auto, using(crate::proofs::Beginning::begun_none, crate::proofs::Beginning::begun_more))]
pub fn begin(xs: &mut [u64])
    requires { 9376 ≤ length xs.old }
    ensures { Begun 8 xs.old xs.new }
{
    for k in 0..SLOTS {
        xs[(SLOTS + k) * STRETCH] = NO_GROUP;
    }
}

// The mark of a spare stretch with this first number.
#[tactic(auto, unfolding(crate::specs::Staging::sealed_mark))]
fn mark_of(first: u64) -> u64
    ensures { result ≡ sealed_mark first }
{
    if first == GROUP { WHOLE } else { FREE }
}

// Marks the spare stretches, so that the staged groups become the groups by `groups::undo`.
#[tactic(auto, using(crate::proofs::Beginning::sealed_none, crate::proofs::Beginning::sealed_more), unfolding(groups::specs::Undo::mark_at))]
pub fn seal(xs: &mut [u64])
    requires { 9376 ≤ length xs.old }
    ensures { Sealed 8 xs.old xs.new }
{
    for k in 0..SLOTS {
        let at = (SLOTS + k) * STRETCH;
        xs[at] = mark_of(xs[at]);
    }
}
