// Runs document 01's program on each file that an argument names, and writes what it prints behind the file's name.
#![tactic(auto)]

use std::env::{Env, FillError};
use std::fs::File;
use std::rt::Files;
use std::{io, str};

// Runs the program on the file that an argument names, or says why it can not be opened.
fn run_file(rt: &(impl Files + Print + Eprint), path: &[u8]) -> io::Result<()> {
    let Ok(name) = str::from_utf8(path) else {
        return eprintln!(rt; "a file's name is not text");
    };
    match File::open(rt, name) {
        Ok(mut file) => {
            println!(rt; "# {name}")?;
            takes_program::run(&mut file, &mut io::writer(rt))
        }
        Err(e) => eprintln!(rt; "{name}: {e}"),
    }
}

// Each argument behind the program's own name is a file. They are asked for one by one, since `env::args` refuses all where one is no text.
fn main(rt: HostRuntime) -> io::Result<()> {
    let mut path = [0u8; 4096];
    for i in 1..usize::MAX {
        match rt.arg(i, &mut path) {
            Ok(length) => run_file(&rt, &path[..length])?,
            Err(FillError::TooLong) => eprintln!(rt; "argument {i} is too long")?,
            Err(FillError::NotPresent) => break,
        }
    }
    Ok(())
}
