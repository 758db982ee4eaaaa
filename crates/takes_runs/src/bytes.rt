// The input, byte by byte: a newline ends a line, and any other byte goes on with the open one.
ghost use Rattle.std.specs.Prelude.{◌+◌, ◌^◌, ◌≤◌, ◌<◌, length};
ghost use Rattle.takes_lines.specs.Bytes.{end_of_line, take_byte};
ghost use Rattle.takes_runs.specs.Steps.{runs_of, Zeroed, Fit, Lends};
ghost use Rattle.takes_runs.specs.Reading.{held_of, Begins, Starts, Stepped};

use crate::runs::{Runs, take_line};
use index::LogBatch;
use takes_lines::{Lent, LineReader};

// What is known between two bytes: the reader of the open line, how many lines have ended, and whether the open one has a byte.
#[derive(Clone, Copy)]
pub struct Known {
    pub reader: LineReader,
    pub lines: u64,
    pub begun: bool,
}

// What is known afterwards, and how many bytes are printed.
#[derive(Clone, Copy)]
pub struct Step {
    pub known: Known,
    pub printed: usize,
}

// What the program holds between two bytes: the areas of its runs, the memory that is lent for a line, and what is known of the open
// line.
#[derive(Drop)]
pub struct Held {
    pub runs: Runs,
    pub lent: Lent,
    pub known: Known,
}

// Before the first byte.
pub fn start() -> Known
    ensures { Begins result }
{
    Known {
        reader: takes_lines::start(),
        lines: 0,
        begun: false,
    }
}

// Ends the open line.
pub fn end_line(
    xs: &mut [u64],
    bs: &mut [u8],
    ys: &mut [u64],
    cs: &mut [u8],
    items: &mut [u64],
    rows: &mut [u64],
    bytes: &mut [u8],
    known: Known,
    out: &mut [u8],
) -> Step
    requires fit { Fit (runs_of xs.old bs.old ys.old cs.old) }
    requires lent { Lends items.old rows.old bytes.old }
    requires in_bounds { (44 ≤ length out.old) × (known.lines + 1 < 2 ^ 64) }
    ensures stepped { Stepped end_of_line (held_of known items.old rows.old bytes.old xs.old bs.old ys.old cs.old) result.printed out.new (held_of result.known items.new rows.new bytes.new xs.new bs.new ys.new cs.new) }
    ensures lines_bound { result.known.lines ≤ known.lines + 1 }
{
    let n = known.lines + 1;
    let line = takes_lines::finish(known.reader, items, rows);
    let batch = LogBatch {
        items,
        entries: rows,
        bytes,
    };
    let printed = take_line(xs, bs, ys, cs, line, &batch, n, out);
    Step {
        known: Known {
            reader: takes_lines::start(),
            lines: n,
            begun: false,
        },
        printed,
    }
}

impl Known {
    // Takes the next byte of the input; the answer is how many bytes are printed.
    pub fn take_byte(
        &mut self,
        xs: &mut [u64],
        bs: &mut [u8],
        ys: &mut [u64],
        cs: &mut [u8],
        items: &mut [u64],
        rows: &mut [u64],
        bytes: &mut [u8],
        b: u8,
        out: &mut [u8],
    ) -> usize
        requires fit { Fit (runs_of xs.old bs.old ys.old cs.old) }
        requires lent { Lends items.old rows.old bytes.old }
        requires in_bounds { (44 ≤ length out.old) × (self.old.lines + 1 < 2 ^ 64) }
        ensures stepped { Stepped (take_byte b) (held_of self.old items.old rows.old bytes.old xs.old bs.old ys.old cs.old) result out.new (held_of self.new items.new rows.new bytes.new xs.new bs.new ys.new cs.new) }
        ensures lines_bound { self.new.lines ≤ self.old.lines + 1 }
    {
        if b == b'\n' {
            let step = end_line(xs, bs, ys, cs, items, rows, bytes, *self, out);
            *self = step.known;
            return step.printed;
        }
        self.reader = takes_lines::feed(self.reader, b, rows, bytes);
        self.begun = true;
        0
    }
}

// Takes the next byte of the input.
pub fn take_byte(
    xs: &mut [u64],
    bs: &mut [u8],
    ys: &mut [u64],
    cs: &mut [u8],
    items: &mut [u64],
    rows: &mut [u64],
    bytes: &mut [u8],
    mut known: Known,
    b: u8,
    out: &mut [u8],
) -> Step
    requires fit { Fit (runs_of xs.old bs.old ys.old cs.old) }
    requires lent { Lends items.old rows.old bytes.old }
    requires in_bounds { (44 ≤ length out.old) × (known.lines + 1 < 2 ^ 64) }
    ensures stepped { Stepped (take_byte b) (held_of known items.old rows.old bytes.old xs.old bs.old ys.old cs.old) result.printed out.new (held_of result.known items.new rows.new bytes.new xs.new bs.new ys.new cs.new) }
    ensures lines_bound { result.known.lines ≤ known.lines + 1 }
{
    let printed = known.take_byte(xs, bs, ys, cs, items, rows, bytes, b, out);
    Step { known, printed }
}

impl Held {
    // Room for what is held, all zeros. `begin` makes the areas where they lie, since they are long to move.
    pub fn zeroed() -> Self
        ensures areas { Zeroed result.runs }
        ensures known { Begins result.known }
    {
        Held {
            runs: Runs::zeroed(),
            lent: Lent::new(),
            known: start(),
        }
    }

    // Before the first byte, whatever was held.
    pub fn begin(&mut self)
        ensures { Starts self.new }
    {
        self.runs.begin();
        self.known = start();
    }

    // Before the first byte. The caller gets it moved.
    pub fn new() -> Self
        ensures { Starts result }
    {
        let mut held = Held::zeroed();
        held.begin();
        held
    }

    // Ends the open line; the answer is how many bytes are printed.
    pub fn end_line(&mut self, out: &mut [u8]) -> usize
        requires fit { Fit self.old.runs }
        requires in_bounds { (44 ≤ length out.old) × (self.old.known.lines + 1 < 2 ^ 64) }
        ensures stepped { Stepped end_of_line self.old result out.new self.new }
        ensures lines_bound { self.new.known.lines ≤ self.old.known.lines + 1 }
    {
        let step = end_line(
            &mut self.runs.xs,
            &mut self.runs.bs,
            &mut self.runs.ys,
            &mut self.runs.cs,
            &mut self.lent.items,
            &mut self.lent.rows,
            &mut self.lent.bytes,
            self.known,
            out,
        );
        self.known = step.known;
        step.printed
    }

    // Takes the next byte of the input; the answer is how many bytes are printed.
    pub fn take_byte(&mut self, b: u8, out: &mut [u8]) -> usize
        requires fit { Fit self.old.runs }
        requires in_bounds { (44 ≤ length out.old) × (self.old.known.lines + 1 < 2 ^ 64) }
        ensures stepped { Stepped (take_byte b) self.old result out.new self.new }
        ensures lines_bound { self.new.known.lines ≤ self.old.known.lines + 1 }
    {
        self.known.take_byte(
            &mut self.runs.xs,
            &mut self.runs.bs,
            &mut self.runs.ys,
            &mut self.runs.cs,
            &mut self.lent.items,
            &mut self.lent.rows,
            &mut self.lent.bytes,
            b,
            out,
        )
    }
}
