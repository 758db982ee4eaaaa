// The keys that a query asks for, counted and copied to the list.
ghost use Rattle.std.specs.Prelude.{◌≡◌, cond, ◌+◌, ◌*◌, ◌-◌, ◌≤◌, ◌<◌, length, take};
ghost use Rattle.maps.specs.Lists.{select};
ghost use Rattle.rules.specs.TableQueries.{row_of};
ghost use Rattle.kvs.specs.Places.{pair_at};
ghost use Rattle.key_lists.specs.Lists.{meets, row_lens, row_bytes, lent_lens, lent_bytes, in_list, stretch, CopyIf};

use crate::Which;
use kvs::Keys;
use kvs::rows::{LENS_WIDTH, ROW_BYTES, VALUE_AT};
use pipe_log::LogQueue;

// Whether the query asks for the key at place `i`.
#[tactic(auto, using(kvs::proofs::Queues::same_queue_is), unfolding(crate::specs::Lists::meets))]
fn chosen(keys: &Keys<'_, '_>, i: usize, which: Which) -> bool
    requires { i < length keys.now }
    ensures { result ≡ meets which (pair_at i keys.now) }
{
    let file = keys.file(i);
    match which {
        Which::UpTo(gate) => file.queue == LogQueue::Append && file.seq <= gate,
        Which::OfRewrite => file.queue == LogQueue::Rewrite,
    }
}

// How many keys the query asks for.
#[tactic(auto, using(kvs::proofs::Selected::count_more, kvs::proofs::Selected::selected_none, kvs::proofs::Selected::selected_all))]
pub fn count_chosen(keys: &Keys<'_, '_>, which: Which) -> usize
    ensures { result ≡ length (select (meets which) keys.now) }
{
    let n = keys.len();
    let mut count = 0;
    for i in 0..n {
        if chosen(keys, i, which) {
            count += 1;
        }
    }
    count
}

// Copies the key at place `i` and its value to row `j` of the list.
fn copy_row(keys: &Keys<'_, '_>, i: usize, lens: &mut [u64], out: &mut [u8], j: usize)
    requires i_lt_length { i < length keys.now }
    requires j_in_bounds { (j * 2 + 2 ≤ length lens.old) × (j * 64 + 64 ≤ length out.old) }
    ensures lens_after { lens.new ≡ row_lens j (row_of (pair_at i keys.now)) lens.old }
    ensures out_after { out.new ≡ row_bytes j (row_of (pair_at i keys.now)) out.old }
{
    let key = keys.key(i);
    let value = keys.value(i);
    let at = j * LENS_WIDTH;
    lens[at] = key.len() as u64;
    lens[at + 1] = value.len() as u64;
    cells::copy_in(out, j * ROW_BYTES, key);
    cells::copy_in(out, j * ROW_BYTES + VALUE_AT, value);
}

// Copies the key at place `i` to row `j` of the list if the query asks for it and the list is to have more than `j` rows; the next row
// of the list.
fn copy_if(
    keys: &Keys<'_, '_>,
    i: usize,
    which: Which,
    limit: usize,
    lens: &mut [u64],
    out: &mut [u8],
    j: usize,
) -> usize
    requires i_lt_length { i < length keys.now }
    requires limit_in_bounds { (limit * 2 ≤ length lens.old) × (limit * 64 ≤ length out.old) }
    ensures { CopyIf (meets which (pair_at i keys.now)) (row_of (pair_at i keys.now)) limit j lens.old out.old result lens.new out.new }
{
    if limit <= j || !chosen(keys, i, which) {
        return j;
    }
    copy_row(keys, i, lens, out, j);
    j + 1
}

// The place that turn `s` of `n` looks at.
fn place_of(n: usize, s: usize, backwards: bool) -> usize
    requires { s < n }
    ensures value { result ≡ cond backwards (n - 1 - s) s }
    ensures upper_bound { result < n }
{
    if backwards { n - 1 - s } else { s }
}

// Copies the first `limit` of the keys that the query asks for, in the direction asked for.
pub fn copy_chosen(
    keys: &Keys<'_, '_>,
    which: Which,
    backwards: bool,
    limit: usize,
    lens: &mut [u64],
    out: &mut [u8],
)
    requires { (limit * 2 ≤ length lens.old) × (limit * 64 ≤ length out.old) }
    ensures lens_after { lens.new ≡ lent_lens 0 (take limit (in_list which backwards keys.now)) lens.old }
    ensures out_after { out.new ≡ lent_bytes 0 (take limit (in_list which backwards keys.now)) out.old }
{
    let n = keys.len();
    let mut j = 0;
    for s in 0..n {
        let i = place_of(n, s, backwards);
        j = copy_if(keys, i, which, limit, lens, out, j);
    }
}

// Copies the first `limit` of the keys from place `low` up to place `high`, in the direction asked for.
pub fn copy_stretch(
    keys: &Keys<'_, '_>,
    low: usize,
    high: usize,
    backwards: bool,
    limit: usize,
    lens: &mut [u64],
    out: &mut [u8],
)
    requires { (low + limit ≤ high) × (high ≤ length keys.now) × (limit * 2 ≤ length lens.old) × (limit * 64 ≤ length out.old) }
    ensures lens_after { lens.new ≡ lent_lens 0 (take limit (stretch low high backwards keys.now)) lens.old }
    ensures out_after { out.new ≡ lent_bytes 0 (take limit (stretch low high backwards keys.now)) out.old }
{
    let count = high - low;
    for j in 0..limit {
        let i = low + place_of(count, j, backwards);
        copy_row(keys, i, lens, out, j);
    }
}
