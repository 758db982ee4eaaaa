// Compares `util::hash_u64` with the vectors of data/hash_u64.txt, and writes how many it read and how many differ.
#![tactic(auto)]

mod vector;

ghost use Rattle.std.specs.Prelude.{◌≡◌, eqb};
ghost use Rattle.util.specs.Mixing.{mixed};

use std::fs::File;
use std::io;
use text::read_below;
use vector::numbers;

// A file of so many bytes has too many vectors.
const BYTES_MOST: usize = 65536;

// Whether a vector has the output that its input is mixed to.
fn is_same(input: u64, output: u64) -> bool
    ensures { result ≡ eqb (mixed input) output }
{
    util::hash_u64(input) == output
}

// Compares the vectors one after another. A line is as long as its numbers, so no iterator gives them.
fn compare_all(rt: &impl Print, text: &[u8]) -> io::Result<()> {
    let mut lines: u64 = 0;
    let mut differ: u64 = 0;
    let mut rest = text;
    while !rest.is_empty() {
        lines += 1;
        let Some((input, output, behind)) = numbers(rest) else {
            return println!(rt; "hash_u64: malformed at line {lines}");
        };
        if !is_same(input, output) {
            println!(rt; "hash_u64 differs at line {lines}")?;
            differ += 1;
        }
        rest = behind;
    }
    println!(rt; "hash_u64: {lines} vectors, {differ} differ")
}

fn main(rt: HostRuntime) -> io::Result<()> {
    let Ok(mut file) = File::open(&rt, "hash_u64.txt") else {
        return rt.println("hash_u64: no file of vectors");
    };
    let Some(text) = read_below(rt.alloc(), &mut file, BYTES_MOST)? else {
        return rt.println("hash_u64: too many vectors");
    };
    compare_all(&rt, text.as_slice())
}
