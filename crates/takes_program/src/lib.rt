// The input and output of document 01's program `takes`: a reader is read by blocks, and what `takes_runs` prints is written to a
// writer by blocks, in fixed memory.
#![tactic(auto)]

ghost use Rattle.std.specs.Prelude.{OnOk, IfSome};
ghost use Rattle.std.specs.Io.KnownBytes.{Appends};
ghost use Rattle.takes_rules.specs.Program.{takes};

use std::io;
use std::io::{ErrorKind, Read, Write};
use takes_runs::blocks::LINE_MOST;
use takes_runs::bytes::Held;

// The reads at most: 2^50, of up to 2^12 bytes each. A proved loop has to end, and nothing says that the input does.
const MOST_BLOCKS: u64 = 1125899906842624;

// The bytes of a block, and the most that it prints: a line for each byte.
const BLOCK: usize = 4096;

const PRINTED_MOST: usize = BLOCK * LINE_MOST;

// Reads the input to its end, and writes what document 01's program prints for it. Where a read or a write fails, nothing more is
// written, and its error is returned.
pub fn run<R: Read, W: Write>(input: &mut R, output: &mut W) -> io::Result<()>
    ensures { OnOk result (IfSome (R.remaining input.old) (λ bytes. Appends (W.contents output.old) (W.contents output.new) (takes bytes))) }
{
    let mut held = Held::zeroed();
    held.begin();
    let mut block = [0u8; BLOCK];
    let mut out = [0u8; PRINTED_MOST];
    for _read in 0..MOST_BLOCKS {
        let n = input.read(&mut block)?;
        if n == 0 {
            let printed = held.end(&mut out);
            return output.write_all(&out[..printed]);
        }
        let printed = held.take_block(&block[..n], &mut out);
        output.write_all(&out[..printed])?;
    }
    Err(io::Error::from(ErrorKind::FileTooLarge))
}
