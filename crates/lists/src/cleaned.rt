// The cleaned numbers of a context, handed out.
ghost use Rattle.std.specs.Prelude.{◌≡◌, ◌≤◌, length, get_or};
ghost use Rattle.cells.specs.Part.{put};
ghost use Rattle.lists.specs.Rest.{cleaned_in};

use crate::{CLEANED_AT, CLEANED_FROM};

// Copies the cleaned numbers to a list that has room for them.
#[tactic(auto, unfolding(cells::specs::Part::part, crate::specs::Rest::cleaned_in))]
pub fn copy_cleaned(ys: &[u64], list: &mut [u64])
    requires ys_len { (length ys.now ≡ 7855) × (get_or ys.now 2 0 ≤ 64) }
    requires ys_in_bounds { get_or ys.now 2 0 ≤ length list.old }
    ensures { list.new ≡ put list.old 0 (cleaned_in ys.now) }
{
    let count = ys[CLEANED_AT] as usize;
    let from = CLEANED_FROM;
    let to = CLEANED_FROM + count;
    cells::copy_in(list, 0, &ys[from..to]);
}
