// The keys of a group that a query asks for, in a lent list of rows: 2 numbers a row in `lens` (key length, value length) and 64
// bytes a row in `out` (32 for the key, then 32 for the value). Of a row's bytes only as many are written as the key and the value have.
#![tactic(auto)]

mod bounds;
mod copies;

ghost use Rattle.std.specs.Prelude.{◌≤◌, length, take, false, option_copied};
ghost use Rattle.rules.specs.Causes.{Ok};
ghost use Rattle.key_lists.specs.Lists.{in_list, stretch, Fetches, ScanKeys, FetchBefore, FetchRewritten};

use bounds::{below_bound, start_above_end};
use copies::{copy_chosen, copy_stretch, count_chosen};
use kvs::Keys;
use kvs::rows::{LENS_WIDTH, ROW_BYTES};
use pipe_log::Cause;

// Which keys a query asks for: the Append ones up to a gate, or the Rewrite ones. It is data and no closure, since the contracts name the
// keys by it (`meets which`); of a closure they would have to say what it answers of each file.
#[derive(Clone, Copy)]
pub enum Which {
    UpTo(u64),
    OfRewrite,
}

// Fills the list with up to `count` of the keys asked for, in the direction asked for.
fn fill_list(
    keys: &Keys<'_, '_>,
    which: Which,
    backwards: bool,
    count: usize,
    lens: &mut [u64],
    out: &mut [u8],
) -> Result<usize, Cause>
    ensures { Fetches (Ok (take count (in_list which backwards keys.now))) lens.old out.old result lens.new out.new }
{
    let limit = count.min(count_chosen(keys, which));
    if lens.len() / LENS_WIDTH < limit || out.len() / ROW_BYTES < limit {
        return Err(Cause::ListTooShort);
    }
    copy_chosen(keys, which, backwards, limit, lens, out);
    Ok(limit)
}

// Fills the list with up to `count` of the keys from place `low` up to place `high`, in the direction asked for.
fn fill_stretch(
    keys: &Keys<'_, '_>,
    low: usize,
    high: usize,
    backwards: bool,
    count: usize,
    lens: &mut [u64],
    out: &mut [u8],
) -> Result<usize, Cause>
    requires { (low ≤ high) × (high ≤ length keys.now) }
    ensures { Fetches (Ok (take count (stretch low high backwards keys.now))) lens.old out.old result lens.new out.new }
{
    let limit = count.min(high - low);
    if lens.len() / LENS_WIDTH < limit || out.len() / ROW_BYTES < limit {
        return Err(Cause::ListTooShort);
    }
    copy_stretch(keys, low, high, backwards, limit, lens, out);
    Ok(limit)
}

// `scan`: the keys from `start` on and below `end`, bounds of any length that are open where they are not there, up to `count` of them.
pub fn scan(
    keys: &Keys<'_, '_>,
    start: Option<&[u8]>,
    end: Option<&[u8]>,
    backwards: bool,
    count: usize,
    lens: &mut [u64],
    out: &mut [u8],
) -> Result<usize, Cause>
    ensures { ScanKeys keys.now (option_copied start.entry) (option_copied end.entry) backwards count lens.old out.old result lens.new out.new }
{
    if start_above_end(start, end) || count == 0 {
        return Err(Cause::BadRange);
    }
    let low = below_bound(keys, start, 0);
    let high = below_bound(keys, end, keys.len());
    fill_stretch(keys, low, high, backwards, count, lens, out)
}

// `fetch_kvs_before`: the Append keys with a file up to the gate.
pub fn fetch_kvs_before(
    keys: &Keys<'_, '_>,
    gate: u64,
    lens: &mut [u64],
    out: &mut [u8],
) -> Result<usize, Cause>
    ensures { FetchBefore keys.now gate lens.old out.old result lens.new out.new }
{
    fill_list(keys, Which::UpTo(gate), false, keys.len(), lens, out)
}

// `fetch_rewritten_kvs`: all Rewrite keys.
pub fn fetch_rewritten_kvs(
    keys: &Keys<'_, '_>,
    lens: &mut [u64],
    out: &mut [u8],
) -> Result<usize, Cause>
    ensures { FetchRewritten keys.now lens.old out.old result lens.new out.new }
{
    fill_list(keys, Which::OfRewrite, false, keys.len(), lens, out)
}
