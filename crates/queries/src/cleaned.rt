// The cleaned numbers of the index, handed out.
ghost use Rattle.std.specs.Prelude.{◌≡◌, ◌≤◌, length, get_or};
ghost use Rattle.contexts.specs.Contexts.{Wf};
ghost use Rattle.queries.specs.Cleaned.{CleanedTaken, HandedOut};

use lists::Kind;
use pipe_log::Cause;

// Hands the cleaned numbers of the lists behind the groups out, and empties them, if the lent list has room for them.
fn hand_out(ys: &mut [u64], list: &mut [u64]) -> Result<usize, Cause>
    requires { (length ys.old ≡ 7855) × (get_or ys.old 2 0 ≤ 64) }
    ensures { HandedOut ys.old list.old result ys.new list.new }
{
    let counts = lists::counts_in(ys);
    let count = counts.cleaned;
    if list.len() < count {
        return Err(Cause::ListTooShort);
    }
    lists::copy_cleaned(ys, list);
    lists::drop_cleaned(ys);
    Ok(count)
}

// Hands out the cleaned numbers of the index in order, and empties the list of them.
pub fn take_cleaned_region_logs(xs: &mut [u64], bs: &[u8], list: &mut [u64]) -> Result<usize, Cause>
    requires { Wf xs.old bs.now }
    ensures { CleanedTaken xs.old bs.now list.old result xs.new list.new }
{
    let a = groups::NUMBERS;
    let kind = lists::kind_in(&xs[a..]);
    let Kind::Index = kind else {
        return Err(Cause::WrongKind);
    };
    hand_out(&mut xs[a..], list)
}
