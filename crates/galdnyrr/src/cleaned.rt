// The cleaned numbers of the index, for C and Rust.
ghost use Rattle.contexts.specs.Contexts.{Wf};
ghost use Rattle.galdnyrr.specs.Asked.{CleanedTold};

use crate::answers::tell_count;

// Hands out the cleaned numbers of the index in order, and empties the list of them.
#[unsafe(no_mangle)]
pub extern "C" fn galdnyrr_take_cleaned_region_logs(
    xs: &mut [u64],
    bs: &[u8],
    list: &mut [u64],
    count: &mut u64,
) -> u64
    requires { Wf xs.old bs.now }
    ensures { CleanedTold xs.old bs.now list.old count.old result count.new xs.new list.new }
{
    let taken = queries::take_cleaned_region_logs(xs, bs, list);
    tell_count(taken, count)
}
