// What a merge or join ends with: the limits of the lists of both, and the refusal of a group.
ghost use Rattle.std.specs.Prelude.{◌≡◌, length, drop};
ghost use Rattle.staging.specs.Modes.{clash_by, counts_fit, counts_of, Few};

use lists::{Counts, MAX_CLEANED, MAX_TOMBSTONES};
use pipe_log::Cause;
use worktable::Mode;

// Whether lists of so many elements may become one. A join has no tombstones.
#[tactic(auto, unfolding(staging::specs::Modes::counts_fit))]
fn counts_fit(mode: Mode, older: Counts, newer: Counts) -> bool
    requires { Few older × Few newer }
    ensures { result ≡ counts_fit mode older newer }
{
    if older.cleaned + newer.cleaned > MAX_CLEANED {
        return false;
    }
    let fit = older.tombstones + newer.tombstones <= MAX_TOMBSTONES;
    match mode {
        Mode::Append | Mode::Rewrite => fit,
        Mode::Join => true,
    }
}

// Whether the lists of both areas may become one.
pub fn lists_fit(mode: Mode, xs: &[u64], ys: &[u64]) -> bool
    requires few { Few (counts_of xs.now) × Few (counts_of ys.now) }
    requires xs_len { (length xs.now ≡ 17231) × (length ys.now ≡ 17231) }
    ensures { result ≡ counts_fit mode (counts_of xs.now) (counts_of ys.now) }
{
    let older = lists::counts_in(&xs[groups::NUMBERS..]);
    let newer = lists::counts_in(&ys[groups::NUMBERS..]);
    counts_fit(mode, older, newer)
}

// The refusal that a group may meet. A join refuses none.
#[tactic(auto, unfolding(staging::specs::Modes::clash_by, rules::specs::Calls::clash))]
pub fn clash_of(mode: Mode) -> Cause
    ensures { result ≡ clash_by mode }
{
    match mode {
        Mode::Append | Mode::Join => Cause::AboveLast,
        Mode::Rewrite => Cause::FilesGoBack,
    }
}
