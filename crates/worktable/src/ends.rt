// How the work on a group ends: the span of a finished part, and whether the table is within the limits.
ghost use Rattle.std.specs.Prelude.{true, List, ◌≡◌, ℕ, ◌≤◌, length};
ghost use Rattle.std.specs.Prelude.{Some};
ghost use Rattle.rules.specs.Causes.{Ok, and_then};
ghost use Rattle.rules.specs.Table.{made, spanned};
ghost use Rattle.rules.specs.Context.{table_fits};
ghost use Rattle.stretch.specs.Stretch.{is_used};
ghost use Rattle.worktable.specs.Work.{work_in, Wf};
ghost use Rattle.worktable.specs.Calls.{Ends};

use crate::acts::provide;
use pipe_log::Cause;
use stretch::{ENTRY_COUNT, KEY_COUNT, MAX_ENTRIES, MAX_KEYS};

// The limits of a group, as the header's numbers are compared with them.
const MOST_ENTRIES: u64 = MAX_ENTRIES as u64;

const MOST_KEYS: u64 = MAX_KEYS as u64;

// Sets the span of a finished atomic group, whose table is made if it is absent; files may not go back.
#[tactic(auto, using(crate::proofs::EndWays::span_set))]
pub fn set_span(p: &mut [u64], start: u64, end: u64) -> Result<(), Cause>
    requires { length p.old ≡ 3722 }
    ensures { (b : List ℕ) → Wf p.old b → Ends (and_then (spanned (record { start = start; end = end }) (made (work_in p.old b))) (λ t. Ok (Some t))) result p.new b }
{
    provide(p);
    stretch::set_span(p, start, end)
}

// Whether the table is there.
#[tactic(auto, unfolding(stretch::specs::Stretch::is_used))]
pub fn is_there(p: &[u64]) -> bool
    requires { 10 ≤ length p.now }
    ensures { result ≡ is_used p.now }
{
    p[0] == 1
}

// Whether the table that is there is within the limits of a group.
#[tactic(auto, using(crate::proofs::EndWays::too_large, crate::proofs::EndWays::fits_by))]
pub fn fits(p: &[u64]) -> bool
    requires { 10 ≤ length p.now }
    ensures { (b : List ℕ) → is_used p.now ≡ true → result ≡ table_fits (made (work_in p.now b)) }
{
    if MOST_ENTRIES < p[ENTRY_COUNT] {
        return false;
    }
    p[KEY_COUNT] <= MOST_KEYS
}
