// The areas of a script's contexts, one behind another.
ghost use Rattle.std.specs.Prelude.{◌≡◌, ◌+◌, ◌*◌, ◌≤◌, ◌<◌, length};
ghost use Rattle.contexts.specs.Contexts.{area_numbers, area_bytes, Wf};
ghost use Rattle.script_areas.specs.Areas.{Areas};

use crate::calls::call;
use crate::writing::unite;
use index::{Area, BYTES, NUMBERS};
use pipe_log::{LogQueue, Refusal};
use scripts::{Row, is_told, row_of, told_answer};

// How many areas there are, and how many numbers and bytes they have in all.
pub const AREAS: usize = 8;

pub const ALL_NUMBERS: usize = AREAS * NUMBERS;

pub const ALL_BYTES: usize = AREAS * BYTES;

// Makes area k a fresh context.
fn fresh_at(xs: &mut [u64], bs: &mut [u8], k: usize)
    requires k_bound { k < 8 }
    requires areas { Areas k xs.old bs.old }
    ensures { Areas (k + 1) xs.new bs.new }
{
    let number = k * NUMBERS;
    let byte = k * BYTES;
    index::fresh(
        &mut xs[number..number + NUMBERS],
        &mut bs[byte..byte + BYTES],
        LogQueue::Append,
    );
}

// Makes every area a fresh context.
pub fn fresh_all(xs: &mut [u64], bs: &mut [u8])
    requires { (length xs.old ≡ 8 * area_numbers) × (length bs.old ≡ 8 * area_bytes) }
    ensures { Areas 8 xs.new bs.new }
{
    for k in 0..AREAS {
        fresh_at(xs, bs, k);
    }
}

// Copies area k.
fn copy_area(xs: &[u64], bs: &[u8], k: usize, ys: &mut [u64], cs: &mut [u8])
    requires k_bound { k < 8 }
    requires areas { Areas 8 xs.now bs.now }
    requires ys_len { (length ys.old ≡ area_numbers) × (length cs.old ≡ area_bytes) }
    ensures { Wf ys.new cs.new }
{
    let number = k * NUMBERS;
    let byte = k * BYTES;
    ys.copy_from_slice(&xs[number..number + NUMBERS]);
    cs.copy_from_slice(&bs[byte..byte + BYTES]);
}

// Merges another context into that of area k, or joins it.
fn unite_at(k: usize, what: u64, xs: &mut [u64], bs: &mut [u8], newer: &Area) -> Result<(), Refusal>
    requires k_bound { k < 8 }
    requires areas { Areas 8 xs.old bs.old }
    ensures { Areas 8 xs.new bs.new }
{
    let number = k * NUMBERS;
    let byte = k * BYTES;
    unite(
        what,
        &mut xs[number..number + NUMBERS],
        &mut bs[byte..byte + BYTES],
        newer,
    )
}

// Merges a copy of the context of another area into that of area k, or joins it.
fn unite_areas(
    k: usize,
    other: usize,
    what: u64,
    xs: &mut [u64],
    bs: &mut [u8],
) -> Result<(), Refusal>
    requires k_bound { (k < 8) × (other < 8) }
    requires areas { Areas 8 xs.old bs.old }
    ensures { Areas 8 xs.new bs.new }
{
    let mut ys = [0; NUMBERS];
    let mut cs = [0; BYTES];
    copy_area(xs, bs, other, &mut ys, &mut cs);
    unite_at(k, what, xs, bs, &Area { xs: &ys, bs: &cs })
}

// Makes the call of a row on area k.
fn call_at(k: usize, row: Row, xs: &mut [u64], bs: &mut [u8], numbers: &[u64]) -> bool
    requires k_bound { k < 8 }
    requires areas { Areas 8 xs.old bs.old }
    ensures { Areas 8 xs.new bs.new }
{
    let number = k * NUMBERS;
    let byte = k * BYTES;
    call(
        row,
        &mut xs[number..number + NUMBERS],
        &mut bs[byte..byte + BYTES],
        numbers,
    )
}

// Makes the call that stands in some numbers on the area that it names, and says whether the answer is as stored. The calls 2 and 3
// are of two areas.
pub fn run(numbers: &[u64], xs: &mut [u64], bs: &mut [u8]) -> bool
    requires in_bounds { 14 ≤ length numbers.now }
    requires areas { Areas 8 xs.old bs.old }
    ensures { Areas 8 xs.new bs.new }
{
    let row = row_of(numbers);
    let k = row.area as usize;
    let other = row.other as usize;
    if AREAS <= k || AREAS <= other {
        return false;
    }
    if row.what / 2 == 1 {
        let answer = unite_areas(k, other, row.what, xs, bs);
        return is_told(told_answer(answer), numbers, row.bytes as usize);
    }
    call_at(k, row, xs, bs, numbers)
}
