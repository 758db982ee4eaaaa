// The queries of keys into lent lists: two numbers a row for the lengths, and 64 bytes a row.
ghost use Rattle.scripts.specs.Agreement.{Stored};

use crate::compare::{ROWS, bytes_are, is_told, numbers_are};
use crate::row::Row;
use crate::told::told_count;
use contexts::Area;
use kvs::rows::{LENS_WIDTH, ROW_BYTES};
use pipe_log::Cause;
use stretch::MAX_KEYS;

// The numbers and the bytes of lists with a row for each key of a group.
const ALL_LENS: usize = MAX_KEYS * LENS_WIDTH;

const ALL_BYTES: usize = MAX_KEYS * ROW_BYTES;

// A scan whose start is the first bytes of a list, and whose end the rest.
fn scan(
    row: Row,
    area: &Area,
    bytes: &[u8],
    lens: &mut [u64],
    out: &mut [u8],
) -> Result<usize, Cause> {
    let Some((start, end)) = bytes.split_at_checked(row.b as usize) else {
        return Err(Cause::BadRange);
    };
    index::scan(
        area,
        row.group,
        (row.a == 1).then_some(start),
        (row.c == 1).then_some(end),
        row.d == 1,
        row.e as usize,
        lens,
        out,
    )
}

// 40 scan, 41 fetch_kvs_before, otherwise fetch_rewritten_kvs.
fn fetch(
    row: Row,
    area: &Area,
    bytes: &[u8],
    lens: &mut [u64],
    out: &mut [u8],
) -> Result<usize, Cause> {
    match row.what {
        40 => scan(row, area, bytes, lens, out),
        41 => index::fetch_kvs_before(area, row.group, row.a, lens, out),
        _ => index::fetch_rewritten_kvs(area, row.group, lens, out),
    }
}

// Whether as many rows of keys as an answer tells are the stored ones: their lengths, and then their bytes.
fn keys_are(told: [u64; 3], lens: &[u64; ALL_LENS], out: &[u8; ALL_BYTES], want: &[u64]) -> bool
    ensures { Stored want.now result }
{
    if !is_told(told, want, 0) {
        return false;
    }
    let n = told[1] as usize;
    n <= MAX_KEYS
        && numbers_are(&lens[..n * LENS_WIDTH], want, ROWS)
        && bytes_are(&out[..n * ROW_BYTES], want, ROWS + n * LENS_WIDTH)
}

// Whether a query of keys is answered as stored, with room for so many rows.
pub fn keys(row: Row, area: &Area, bytes: &[u8], want: &[u64]) -> bool
    ensures { Stored want.now result }
{
    let room = row.room as usize;
    if MAX_KEYS < room {
        return false;
    }
    let mut lens = [0; ALL_LENS];
    let mut out = [0; ALL_BYTES];
    let answer = fetch(
        row,
        area,
        bytes,
        &mut lens[..room * LENS_WIDTH],
        &mut out[..room * ROW_BYTES],
    );
    keys_are(told_count(answer), &lens, &out, want)
}
