// What is asked of a group's keys. Rows of keys go into lent lists of two numbers a row (key length, value length) and 64 bytes a row
// (32 for the key, then 32 for the value).
ghost use Rattle.std.specs.Prelude.{◌≡◌, ◌≤◌, ◌<◌, length, option_copied};
ghost use Rattle.rules.specs.Causes.{by_cause, Ok};
ghost use Rattle.rules.specs.TableQueries.{get_key};
ghost use Rattle.rules.specs.TableQueries as rules;
ghost use Rattle.rules.specs.Queries.{in_group};
ghost use Rattle.stretch.specs.Stretch.{table_in};
ghost use Rattle.stretch.specs.Stretch as stretch;
ghost use Rattle.groups.specs.Area.{stretch_at, bytes_at};
ghost use Rattle.queries.specs.Fetches.{got_of, KeysFetched};

use crate::places::{key_bytes, key_count_at, key_rows, place_of};
use contexts::Area;
use kvs::Keys;
use pipe_log::Cause;

// The number of a group's keys.
pub fn key_count(area: &Area, group: u64) -> Result<usize, Cause>
    ensures { by_cause result ≡ in_group group (λ t. Ok (length t.keys)) area.now }
{
    let k = place_of(area.xs, group)?;
    Ok(key_count_at(area.xs, k))
}

// The value of a key in the group of stretch k.
fn get_at<'a>(xs: &[u64], bs: &'a [u8], k: usize, key: &[u8]) -> Option<&'a [u8]>
    requires k_bound { (k < 8) × (9376 ≤ length xs.now) × (16384 ≤ length bs.now) }
    requires wf { stretch.Wf (stretch_at k xs.now) (bytes_at k bs.now) }
    ensures { option_copied result ≡ get_key key.now (table_in (stretch_at k xs.now) (bytes_at k bs.now)) }
{
    let keys = Keys::new(key_count_at(xs, k), key_rows(xs, k), key_bytes(bs, k));
    keys.get(key)
}

// The value of a key of any length in a group, as the part of the area that holds it, if the key is there.
pub fn get<'b>(area: &Area<'_, 'b>, group: u64, key: &[u8]) -> Result<Option<&'b [u8]>, Cause>
    ensures { got_of result ≡ in_group group (λ t. Ok (get_key key.now t)) area.now }
{
    Ok(get_at(area.xs, area.bs, place_of(area.xs, group)?, key))
}

// Scans a group's keys from `start` on and below `end`, bounds of any length that are open where they are not there, up to `count`
// of them.
pub fn scan(
    area: &Area,
    group: u64,
    start: Option<&[u8]>,
    end: Option<&[u8]>,
    backwards: bool,
    count: usize,
    lens: &mut [u64],
    out: &mut [u8],
) -> Result<usize, Cause>
    ensures { KeysFetched (in_group group (rules.scan (option_copied start.entry) (option_copied end.entry) backwards count) area.now) lens.old out.old result lens.new out.new }
{
    let k = place_of(area.xs, group)?;
    let n = key_count_at(area.xs, k);
    let rows = key_rows(area.xs, k);
    let bytes = key_bytes(area.bs, k);
    let keys = Keys::new(n, rows, bytes);
    key_lists::scan(&keys, start, end, backwards, count, lens, out)
}

// Fetches a group's Append keys with a file up to the gate.
pub fn fetch_kvs_before(
    area: &Area,
    group: u64,
    gate: u64,
    lens: &mut [u64],
    out: &mut [u8],
) -> Result<usize, Cause>
    ensures { KeysFetched (in_group group (λ t. Ok (rules.fetch_kvs_before gate t)) area.now) lens.old out.old result lens.new out.new }
{
    let k = place_of(area.xs, group)?;
    let n = key_count_at(area.xs, k);
    let rows = key_rows(area.xs, k);
    let bytes = key_bytes(area.bs, k);
    let keys = Keys::new(n, rows, bytes);
    key_lists::fetch_kvs_before(&keys, gate, lens, out)
}

// Fetches all Rewrite keys of a group.
pub fn fetch_rewritten_kvs(
    area: &Area,
    group: u64,
    lens: &mut [u64],
    out: &mut [u8],
) -> Result<usize, Cause>
    ensures { KeysFetched (in_group group (λ t. Ok (rules.fetch_rewritten_kvs t)) area.now) lens.old out.old result lens.new out.new }
{
    let k = place_of(area.xs, group)?;
    let n = key_count_at(area.xs, k);
    let rows = key_rows(area.xs, k);
    let bytes = key_bytes(area.bs, k);
    let keys = Keys::new(n, rows, bytes);
    key_lists::fetch_rewritten_kvs(&keys, lens, out)
}
