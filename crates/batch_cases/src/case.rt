// A case of the file: a line that names it, a line of six numbers, and the numbers of the three slices.
ghost use Rattle.std.specs.Prelude.{◌<◌, ◌≤◌, OnOk, OnSome, length};

use log_batch::open::ITEM_WIDTH;
use log_batch::{Call, LogBatch};
use pipe_log::{ENTRY_WIDTH, Refusal};
use std::alloc::Global;
use text::{ReadError, number_at};

// The numbers of a case's own line, the bytes in a row of bytes, and the longest slice of a case.
const HEAD: usize = 6;

const BYTES_IN_ROW: usize = 32;

const SLICE_MOST: usize = 512;

// Passes over the first line of a text.
fn pass_line(text: &mut &[u8]) -> Result<(), ReadError>
    ensures { OnOk result (length text.new.now < length text.old.now) }
{
    let end = text
        .iter()
        .position(|&b| b == b'\n')
        .ok_or(ReadError::Malformed)?;
    *text = &text[end + 1..];
    Ok(())
}

// The byte that ends number i of `count` numbers in rows of `width`: a line end after a row, and a space within it.
fn end_of(i: usize, count: usize, width: usize) -> u8
    requires { (i < count) × (0 < width) }
{
    if i == count - 1 || i % width == width - 1 {
        return b'\n';
    }
    b' '
}

// The first `count` numbers of a text, in rows of `width`.
fn next_rows(
    alloc: Global,
    text: &mut &[u8],
    count: usize,
    width: usize,
) -> Result<Vec<u64>, ReadError>
    requires { 0 < width }
    ensures { OnOk result (length text.new.now ≤ length text.old.now) }
{
    let mut numbers = Vec::new(alloc);
    for i in 0..count {
        let (number, rest) = number_at(text, end_of(i, count, width)).ok_or(ReadError::Malformed)?;
        numbers.push(number)?;
        *text = rest;
    }
    Ok(numbers)
}

fn call_of(number: u64) -> Call {
    match number {
        0 => Call::ReplayAppend,
        1 => Call::ReplayRewrite,
        2 => Call::LiveAppend,
        _ => Call::LiveRewrite { gate: None, seq: 1 },
    }
}

// Whether an answer is the number and place that are expected; a batch that passes has number 0.
fn is_expected(answer: Result<(), Refusal>, expected: u64, at: u64) -> bool {
    match answer {
        Ok(()) => expected == 0,
        Err(Refusal { cause, place }) => {
            cause.number() == expected && place.is_some_and(|i| i as u64 == at)
        }
    }
}

// Whether the first case of a text has the answer that is expected. The text is left with the cases behind it.
pub fn run(alloc: Global, text: &mut &[u8]) -> Result<bool, ReadError>
    ensures { OnOk result (length text.new.now < length text.old.now) }
{
    pass_line(text)?;
    let head = next_rows(alloc, text, HEAD, HEAD)?;
    let [call, expected, at, items, entries, bytes] = head.as_slice() else {
        return Err(ReadError::Malformed);
    };
    if SLICE_MOST < (*items).max(*entries).max(*bytes) as usize {
        return Err(ReadError::Malformed);
    }
    let items = next_rows(alloc, text, *items as usize, ITEM_WIDTH)?;
    let entries = next_rows(alloc, text, *entries as usize, ENTRY_WIDTH)?;
    let bytes = next_rows(alloc, text, *bytes as usize, BYTES_IN_ROW)?;
    // Of a higher number the last eight bits.
    let bytes: Vec<u8> = bytes
        .iter()
        .map(|number| (number % 256) as u8)
        .collect(alloc)?;
    let batch = LogBatch {
        items: items.as_slice(),
        entries: entries.as_slice(),
        bytes: bytes.as_slice(),
    };
    let answer = log_batch::check(call_of(*call), &batch);
    Ok(is_expected(answer, *expected, *at))
}
