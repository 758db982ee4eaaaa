// The call that stands in some numbers, made on the context of an area, and what it answers compared with the stored answer.
ghost use Rattle.std.specs.Prelude.{◌≤◌, length};
ghost use Rattle.contexts.specs.Contexts.{Wf};

use crate::writing::write;
use contexts::Area;
use index::LogBatch;
use scripts::{HEAD, LISTED, Row, ask, is_listed, is_told, told_answer, told_count};

// `take_cleaned_region_logs`, with room for so many numbers.
fn cleaned(row: Row, xs: &mut [u64], bs: &[u8], want: &[u64]) -> bool
    requires { Wf xs.old bs.now }
    ensures { Wf xs.new bs.now }
{
    let mut list = [0; LISTED];
    let Some(lent) = list.get_mut(..row.room as usize) else {
        return false;
    };
    let answer = index::take_cleaned_region_logs(xs, bs, lent);
    is_listed(told_count(answer), list, want)
}

// The numbers from place a to place b, or none where there are no such places.
fn between(numbers: &[u64], a: usize, b: usize) -> &[u64] {
    numbers.get(a..b).unwrap_or(&[])
}

// The numbers of a list as bytes, as many as there is room for; of a higher number the last eight bits.
fn narrow(list: &[u64], out: &mut [u8]) -> usize
    ensures { result ≤ length out.old }
{
    for (byte, number) in out.iter_mut().zip(list) {
        *byte = (*number % 256) as u8;
    }
    list.len().min(out.len())
}

// Makes a call with its bytes: below 6 those that write, 9 the cleaned numbers, and above it the queries.
fn make(row: Row, xs: &mut [u64], bs: &mut [u8], numbers: &[u64], bytes: &[u8]) -> bool
    requires { Wf xs.old bs.old }
    ensures { Wf xs.new bs.new }
{
    if row.what < 6 {
        let items = between(numbers, HEAD, row.items as usize);
        let entries = between(numbers, row.items as usize, row.entries as usize);
        let batch = LogBatch {
            items,
            entries,
            bytes,
        };
        let answer = write(row, xs, bs, &batch);
        return is_told(told_answer(answer), numbers, row.bytes as usize);
    }
    let want = between(numbers, row.bytes as usize, numbers.len());
    match row.what {
        9 => cleaned(row, xs, bs, want),
        _ => ask(row, &Area { xs, bs }, bytes, want),
    }
}

// Makes the call that stands in some numbers, and says whether it is answered as stored.
pub fn call(row: Row, xs: &mut [u64], bs: &mut [u8], numbers: &[u64]) -> bool
    requires { Wf xs.old bs.old }
    ensures { Wf xs.new bs.new }
{
    let mut buffer = [0; 512];
    let lent = between(numbers, row.entries as usize, row.bytes as usize);
    let n = narrow(lent, &mut buffer);
    make(row, xs, bs, numbers, &buffer[..n])
}
