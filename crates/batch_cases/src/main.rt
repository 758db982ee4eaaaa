// Compares `log_batch::check` with the cases of data/cases.txt, and writes how many it ran and how many differ.
#![tactic(auto)]

mod case;

use std::fs::File;
use std::io;
use text::{ReadError, read_below};

// A file of so many bytes has too many cases.
const BYTES_MOST: usize = 65536;

// Compares the cases one after another. A case takes as many lines as its head says, so no iterator gives them.
fn compare_all(rt: &(impl AllocGlobal + Print), mut text: &[u8]) -> io::Result<()> {
    let mut cases: u64 = 0;
    let mut differ: u64 = 0;
    while !text.is_empty() {
        cases += 1;
        match case::run(rt.alloc(), &mut text) {
            Ok(true) => {}
            Ok(false) => {
                println!(rt; "checks: other answer in case {cases}")?;
                differ += 1;
            }
            Err(ReadError::Malformed) => {
                return println!(rt; "checks: malformed case {cases}");
            }
            Err(ReadError::Memory(error)) => return Err(error.into()),
        }
    }
    println!(rt; "checks: {cases} cases, {differ} differ")
}

fn main(rt: HostRuntime) -> io::Result<()> {
    let Ok(mut file) = File::open(&rt, "cases.txt") else {
        return rt.println("checks: no file of cases");
    };
    let Some(text) = read_below(rt.alloc(), &mut file, BYTES_MOST)? else {
        return rt.println("checks: too many cases");
    };
    compare_all(&rt, text.as_slice())
}
