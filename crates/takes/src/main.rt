// Document 01's program `takes`: lines on standard input, groups and live counts on standard output.
#![tactic(auto)]

use std::io;

fn main(rt: HostRuntime) -> io::Result<()> {
    takes_program::run(&mut rt.reader(), &mut io::writer(&rt))
}
