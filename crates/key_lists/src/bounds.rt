// The bounds of a scan.
ghost use Rattle.std.specs.Prelude.{◌≡◌, ◌≤◌, length, option_copied};
ghost use Rattle.rules.specs.TableQueries.{start_above_end};
ghost use Rattle.kvs.specs.Places.{below_bound};

use kvs::Keys;

// How many keys are below a bound, or `otherwise` where it is not there.
#[tactic(auto, using(kvs::proofs::Search::at_within, kvs::proofs::Search::before_within), unfolding(kvs::specs::Places::below_bound, kvs::specs::Places::below_at, maps::specs::Lists::or_else))]
pub fn below_bound(keys: &Keys<'_, '_>, bound: Option<&[u8]>, otherwise: usize) -> usize
    requires { otherwise ≤ length keys.now }
    ensures value { result ≡ below_bound otherwise (option_copied bound.entry) keys.now }
    ensures upper_bound { result ≤ length keys.now }
{
    let Some(key) = bound else {
        return otherwise;
    };
    match keys.find(key) {
        Ok(i) | Err(i) => i,
    }
}

// Whether both bounds are there and the start is above the end.
#[tactic(auto, unfolding(rules::specs::TableQueries::start_above_end, maps::specs::Lists::or_else))]
pub fn start_above_end(start: Option<&[u8]>, end: Option<&[u8]>) -> bool
    ensures { result ≡ start_above_end (option_copied start.entry) (option_copied end.entry) }
{
    match (start, end) {
        (Some(start), Some(end)) => cells::compare_u8(end, start).is_lt(),
        _ => false,
    }
}
