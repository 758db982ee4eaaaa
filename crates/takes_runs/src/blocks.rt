// The input by blocks, whatever their lengths.
ghost use Rattle.std.specs.Prelude.{◌+◌, ◌*◌, ◌^◌, ◌≤◌, ◌<◌, length};
ghost use Rattle.takes_lines.specs.Bytes.{take_bytes};
ghost use Rattle.takes_runs.specs.Steps.{runs_of, Fit, Lends};
ghost use Rattle.takes_runs.specs.Reading.{held_of, Stepped};

use crate::bytes::{Held, Known, Step};

// The most bytes that the line of a refusal takes; that of a malformed line takes less.
pub const LINE_MOST: usize = 44;

// Takes the bytes of a block in order.
pub fn take_block(
    xs: &mut [u64],
    bs: &mut [u8],
    ys: &mut [u64],
    cs: &mut [u8],
    items: &mut [u64],
    rows: &mut [u64],
    bytes: &mut [u8],
    mut known: Known,
    block: &[u8],
    out: &mut [u8],
) -> Step
    requires fit { Fit (runs_of xs.old bs.old ys.old cs.old) }
    requires lent { Lends items.old rows.old bytes.old }
    requires block_in_bounds { (44 * length block.now ≤ length out.old) × (known.lines + length block.now < 2 ^ 64) }
    ensures stepped { Stepped (take_bytes block.now) (held_of known items.old rows.old bytes.old xs.old bs.old ys.old cs.old) result.printed out.new (held_of result.known items.new rows.new bytes.new xs.new bs.new ys.new cs.new) }
    ensures lines_bound { result.known.lines ≤ known.lines + length block.now }
{
    let mut printed = 0;
    for &b in block {
        let e = printed + LINE_MOST;
        printed += known.take_byte(xs, bs, ys, cs, items, rows, bytes, b, &mut out[printed..e]);
    }
    Step { known, printed }
}

impl Held {
    // Takes the bytes of a block in order; the answer is how many bytes are printed.
    pub fn take_block(&mut self, block: &[u8], out: &mut [u8]) -> usize
        requires fit { Fit self.old.runs }
        requires block_in_bounds { (44 * length block.now ≤ length out.old) × (self.old.known.lines + length block.now < 2 ^ 64) }
        ensures stepped { Stepped (take_bytes block.now) self.old result out.new self.new }
        ensures lines_bound { self.new.known.lines ≤ self.old.known.lines + length block.now }
    {
        let step = take_block(
            &mut self.runs.xs,
            &mut self.runs.bs,
            &mut self.runs.ys,
            &mut self.runs.cs,
            &mut self.lent.items,
            &mut self.lent.rows,
            &mut self.lent.bytes,
            self.known,
            block,
            out,
        );
        self.known = step.known;
        step.printed
    }
}
