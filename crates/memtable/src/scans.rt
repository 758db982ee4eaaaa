// Scans of rows from a place on.
ghost use Rattle.std.specs.Prelude.{◌≡◌, ◌+◌, ◌*◌, ◌≤◌, ◌^◌, length, drop};
ghost use Rattle.memtable.specs.Views.{AnyRows};
ghost use Rattle.memtable.specs.Scans.{count_before, stops, len_sum, all_fit, size_count};

use pipe_log::ENTRY_WIDTH;

// How many of `count` rows from row `from` on stand before the first with a sequence number above the gate.
pub fn count_before(part: &[u64], from: usize, count: usize, gate: u64) -> usize
    requires { (from + count) * 8 ≤ length part.now }
    ensures { (result ≡ count_before gate count (drop (from * 8) part.now)) × (result ≤ count) }
{
    for i in 0..count {
        if gate < part[(from + i) * ENTRY_WIDTH + 2] {
            return i;
        }
    }
    count
}

// Whether a record of length `len` is one too many after lengths that sum to `sum`.
#[tactic(auto, unfolding(crate::specs::Scans::stops))]
fn over_size(size: u64, sum: u64, len: u64) -> bool
    ensures { result ≡ stops size sum len }
{
    if sum == 0 {
        return false;
    }
    if size < sum {
        return true;
    }
    size - sum < len
}

// No more rows than this are summed, so that the sum fits.
const MAX_SUMMED: usize = 0x1000_0000;

// The sum of the entry lengths of `count` rows from row `from` on.
fn sum_lens(part: &[u64], from: usize, count: usize) -> u64
    requires count_in_bounds { ((from + count) * 8 ≤ length part.now) × (count ≤ 2 ^ 28) }
    requires any_rows { AnyRows from (from + count) part.now }
    ensures { result ≡ len_sum count (drop (from * 8) part.now) }
{
    let mut sum = 0;
    for i in 0..count {
        sum += part[(from + i) * ENTRY_WIDTH + 7];
    }
    sum
}

// Whether the entry lengths of `count` rows from row `from` on sum within the size.
#[tactic(auto, unfolding(crate::specs::Scans::all_fit))]
fn all_fit(part: &[u64], from: usize, count: usize, size: u64) -> bool
    requires count_in_bounds { (from + count) * 8 ≤ length part.now }
    requires any_rows { AnyRows from (from + count) part.now }
    ensures { result ≡ all_fit size count (drop (from * 8) part.now) }
{
    count <= MAX_SUMMED && sum_lens(part, from, count) <= size
}

// How many of `count` rows from row `from` on stand before the first that is one too many for the size, row by row.
fn count_by_size(part: &[u64], from: usize, count: usize, size: u64) -> usize
    requires count_in_bounds { (from + count) * 8 ≤ length part.now }
    requires any_rows { AnyRows from (from + count) part.now }
    ensures { (result ≡ size_count size 0 count (drop (from * 8) part.now)) × (result ≤ count) }
{
    let mut sum = 0;
    for i in 0..count {
        let len = part[(from + i) * ENTRY_WIDTH + 7];
        if over_size(size, sum, len) {
            return i;
        }
        sum += len;
    }
    count
}

// The same; all of them where their lengths sum within the size.
pub fn count_to_size(part: &[u64], from: usize, count: usize, size: u64) -> usize
    requires count_in_bounds { (from + count) * 8 ≤ length part.now }
    requires any_rows { AnyRows from (from + count) part.now }
    ensures { (result ≡ size_count size 0 count (drop (from * 8) part.now)) × (result ≤ count) }
{
    if all_fit(part, from, count, size) {
        return count;
    }
    count_by_size(part, from, count, size)
}
