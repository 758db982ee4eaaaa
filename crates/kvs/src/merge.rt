// A newer table's keys laid over a group's own.
ghost use Rattle.std.specs.Prelude.{true, ◌≡◌, ◌^◌, ◌≤◌, ◌<◌, length};
ghost use Rattle.rules.specs.Table.{over_keys};
ghost use Rattle.kvs.specs.Rows.{keys_in, Wf, fits};
ghost use Rattle.kvs.specs.Places.{pair_at};
ghost use Rattle.kvs.specs.Calls.{PutKey};
ghost use Rattle.kvs.specs.Merge.{LaidOver, MergeKeys};

use crate::rows::{ROW_BYTES, ROW_WIDTH};
use crate::{Keys, put};
use pipe_log::Cause;

// How many keys there are with the newer ones laid over.
#[tactic(auto, using(crate::proofs::Merges::lacks_none, crate::proofs::Merges::lacks_more, crate::proofs::Merges::absent, crate::proofs::Merges::present, crate::proofs::Merges::length_over))]
fn count_over(keys: &Keys<'_, '_>, newer: &Keys<'_, '_>) -> usize
    ensures value { result ≡ length (over_keys keys.now newer.now) }
    ensures upper_bound { result < 2 ^ 58 }
{
    let m = newer.len();
    let mut count = keys.len();
    for j in 0..m {
        if keys.find(newer.key(j)).is_err() {
            count += 1;
        }
    }
    count
}

// Puts the newer key at place `j`.
fn put_pair(
    n: usize,
    rows: &mut [u64],
    bytes: &mut [u8],
    newer: &Keys<'_, '_>,
    j: usize,
) -> Result<usize, Cause>
    requires wf { Wf n rows.old bytes.old }
    requires j_lt_length { j < length newer.now }
    ensures { PutKey n rows.old bytes.old (pair_at j newer.now).key (pair_at j newer.now).val result rows.new bytes.new }
{
    let file = newer.file(j);
    put(
        n,
        rows,
        bytes,
        newer.key(j),
        newer.value(j),
        file.queue,
        file.seq,
    )
}

// Puts each of the newer keys, for which there is room.
#[tactic(auto, using(crate::proofs::Merges::laying_none, crate::proofs::Merges::never_full))]
fn lay_over(n: usize, rows: &mut [u64], bytes: &mut [u8], newer: &Keys<'_, '_>) -> usize
    requires wf { Wf n rows.old bytes.old }
    requires bytes_value { fits (length (over_keys (keys_in n rows.old bytes.old) newer.now)) rows.old bytes.old ≡ true }
    ensures { LaidOver n rows.old bytes.old newer.now result rows.new bytes.new }
{
    let m = newer.len();
    let mut count = n;
    for j in 0..m {
        count = put_pair(count, rows, bytes, newer, j).unwrap();
    }
    count
}

// Lays the keys of a newer part over the part's own; a key of both takes the newer value and file.
pub fn merge_keys(
    n: usize,
    rows: &mut [u64],
    bytes: &mut [u8],
    newer: &Keys<'_, '_>,
) -> Result<usize, Cause>
    requires { Wf n rows.old bytes.old }
    ensures { MergeKeys n rows.old bytes.old newer.now result rows.new bytes.new }
{
    let all = count_over(&Keys::new(n, rows, bytes), newer);
    if rows.len() < all * ROW_WIDTH {
        return Err(Cause::LimitPassed);
    }
    if bytes.len() < all * ROW_BYTES {
        return Err(Cause::LimitPassed);
    }
    Ok(lay_over(n, rows, bytes, newer))
}
