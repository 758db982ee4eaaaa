// Makes the calls of the files of data/ on the index, and writes of each file how many answers are other than the Rust's.
#![tactic(auto)]

ghost use Rattle.std.specs.Prelude.{◌≡◌, ◌+◌, ◌*◌, ◌≤◌, IfSome, length};
ghost use Rattle.contexts.specs.Contexts.{area_numbers, area_bytes};

use script_areas::{ALL_BYTES, ALL_NUMBERS};
use scripts::HEAD;
use std::alloc::Global;
use std::fs::File;
use std::io;
use std::rt::Files;
use text::{ReadError, add_numbers, read_all, read_below};

// A file of so many bytes is too long.
const BYTES_MOST: usize = 262144;

const FILES: [&str; 9] = [
    "bench_1.txt",
    "tables_1.txt",
    "tables_2.txt",
    "tables_3.txt",
    "tables_4.txt",
    "index_1.txt",
    "index_2.txt",
    "index_3.txt",
    "index_4.txt",
];

// The numbers of a text as `text::read_all` reads them, and of one that it refuses where a # in place of a number ends a line early, or a
// space the last line. Bytes that are no UTF-8 stand in no number.
fn read_numbers(alloc: Global, text: &[u8]) -> Result<Vec<u64>, ReadError> {
    match read_all(alloc, text) {
        Err(ReadError::Malformed) => {
            read_marked(alloc, String::from_utf8_lossy(alloc, text)?.as_str())
        }
        answer => answer,
    }
}

// The numbers of a text whose lines a # ends early, or a space the last one.
fn read_marked(alloc: Global, text: &str) -> Result<Vec<u64>, ReadError> {
    let mut numbers = Vec::new(alloc);
    for line in text.split_inclusive('\n') {
        let told = match line.strip_suffix('\n') {
            Some(ended) => ended.split_once(" #").map_or(ended, |(front, _)| front),
            None => line.strip_suffix(' ').ok_or(ReadError::Malformed)?,
        };
        if !told.starts_with('#') || !line.ends_with('\n') {
            add_numbers(told, &mut numbers)?;
        }
    }
    Ok(numbers)
}

// The first call of some numbers, whose first number says how many it has, and the numbers behind it; `None` where it is malformed.
fn split_call(numbers: &[u64]) -> Option<(&[u64], &[u64])>
    ensures { IfSome result (λ r. (14 ≤ length r.0.now) × (length r.0.now + length r.1.now ≡ length numbers.now)) }
{
    let length = *numbers.first()? as usize;
    numbers
        .split_at_checked(length)
        .filter(|(call, _)| HEAD <= call.len())
}

// Compares the calls one after another, each on what those before it left. A call is as long as its first number says, so no iterator
// gives them.
fn compare_all(
    rt: &impl Print,
    name: &str,
    numbers: &[u64],
    xs: &mut [u64],
    bs: &mut [u8],
) -> io::Result<()>
    requires { (length xs.old ≡ 8 * area_numbers) × (length bs.old ≡ 8 * area_bytes) }
{
    script_areas::fresh_all(xs, bs);
    let mut rest = numbers;
    let mut calls: u64 = 0;
    let mut differ: u64 = 0;
    while !rest.is_empty() {
        calls += 1;
        let Some((call, after)) = split_call(rest) else {
            return println!(rt; "{name}: malformed call {calls}");
        };
        if !script_areas::run(call, xs, bs) {
            println!(rt; "{name}: other answer in call {calls}")?;
            differ += 1;
        }
        rest = after;
    }
    println!(rt; "{name}: {calls} calls, {differ} differ")
}

// Compares the calls of a file.
fn compare_file(
    rt: &(impl AllocGlobal + Files + Print),
    name: &str,
    xs: &mut [u64],
    bs: &mut [u8],
) -> io::Result<()>
    requires { (length xs.old ≡ 8 * area_numbers) × (length bs.old ≡ 8 * area_bytes) }
{
    let Ok(mut file) = File::open(rt, name) else {
        return println!(rt; "{name}: no such file");
    };
    let Some(text) = read_below(rt.alloc(), &mut file, BYTES_MOST)? else {
        return println!(rt; "{name}: too long");
    };
    match read_numbers(rt.alloc(), text.as_slice()) {
        Ok(numbers) => compare_all(rt, name, numbers.as_slice(), xs, bs),
        Err(ReadError::Malformed) => println!(rt; "{name}: malformed"),
        Err(ReadError::Memory(error)) => Err(error.into()),
    }
}

// Compares the calls of the files, one after another on the same areas.
fn compare_files(
    rt: &(impl AllocGlobal + Files + Print),
    xs: &mut [u64],
    bs: &mut [u8],
) -> io::Result<()>
    requires { (length xs.old ≡ 8 * area_numbers) × (length bs.old ≡ 8 * area_bytes) }
{
    for name in FILES {
        compare_file(rt, name, xs, bs)?;
    }
    Ok(())
}

fn main(rt: HostRuntime) -> io::Result<()> {
    let mut xs = vec![in rt.alloc(); 0; ALL_NUMBERS]?;
    let mut bs = vec![in rt.alloc(); 0; ALL_BYTES]?;
    compare_files(&rt, xs.as_mut_slice(), bs.as_mut_slice())
}
