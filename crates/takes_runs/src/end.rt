// The end of the input: the last line, the last run, and what is printed of all.
ghost use Rattle.std.specs.Prelude.{◌+◌, ◌^◌, ◌≤◌, ◌<◌, length};
ghost use Rattle.takes_runs.specs.Steps.{runs_of, Fit, Lends};
ghost use Rattle.takes_runs.specs.Reading.{held_of, Stepped, EndedInput, PrintedAll, end_of_input};

use crate::blocks::LINE_MOST;
use crate::bytes::{Held, Known, Step, end_line};
use crate::runs::merge_run;
use crate::totals::{TOTALS_MOST, totals};

// Ends the open line, if it has a byte.
fn last_line(
    xs: &mut [u64],
    bs: &mut [u8],
    ys: &mut [u64],
    cs: &mut [u8],
    items: &mut [u64],
    rows: &mut [u64],
    bytes: &mut [u8],
    known: Known,
    out: &mut [u8],
) -> Step
    requires fit { Fit (runs_of xs.old bs.old ys.old cs.old) }
    requires lent { Lends items.old rows.old bytes.old }
    requires in_bounds { (44 ≤ length out.old) × (known.lines + 1 < 2 ^ 64) }
    ensures { Stepped end_of_input (held_of known items.old rows.old bytes.old xs.old bs.old ys.old cs.old) result.printed out.new (held_of result.known items.new rows.new bytes.new xs.new bs.new ys.new cs.new) }
{
    if known.begun {
        return end_line(xs, bs, ys, cs, items, rows, bytes, known, out);
    }
    Step { known, printed: 0 }
}

// Ends the last line and the last run: the line may have no newline, and the last run is merged.
fn end_input(
    xs: &mut [u64],
    bs: &mut [u8],
    ys: &mut [u64],
    cs: &mut [u8],
    items: &mut [u64],
    rows: &mut [u64],
    bytes: &mut [u8],
    known: Known,
    out: &mut [u8],
) -> usize
    requires fit { Fit (runs_of xs.old bs.old ys.old cs.old) }
    requires lent { Lends items.old rows.old bytes.old }
    requires in_bounds { (88 ≤ length out.old) × (known.lines + 1 < 2 ^ 64) }
    ensures { EndedInput (held_of known items.old rows.old bytes.old xs.old bs.old ys.old cs.old) result out.new (runs_of xs.new bs.new ys.new cs.new) }
{
    let e = LINE_MOST;
    let step = last_line(xs, bs, ys, cs, items, rows, bytes, known, &mut out[..e]);
    let first = step.printed;
    let last = first + LINE_MOST;
    let n = step.known.lines;
    first + merge_run(xs, bs, ys, cs, n, &mut out[first..last])
}

// Ends the input, and prints the groups and the live counts; the answer is how many bytes are printed.
pub fn end_all(
    xs: &mut [u64],
    bs: &mut [u8],
    ys: &mut [u64],
    cs: &mut [u8],
    items: &mut [u64],
    rows: &mut [u64],
    bytes: &mut [u8],
    known: Known,
    out: &mut [u8],
) -> usize
    requires fit { Fit (runs_of xs.old bs.old ys.old cs.old) }
    requires lent { Lends items.old rows.old bytes.old }
    requires in_bounds { (820 ≤ length out.old) × (known.lines + 1 < 2 ^ 64) }
    ensures { PrintedAll (held_of known items.old rows.old bytes.old xs.old bs.old ys.old cs.old) result out.new }
{
    let e = 2 * LINE_MOST;
    let first = end_input(xs, bs, ys, cs, items, rows, bytes, known, &mut out[..e]);
    let last = first + TOTALS_MOST;
    first + totals(xs, bs, &mut out[first..last])
}

impl Held {
    // Ends the input, and prints the groups and the live counts; the answer is how many bytes are printed.
    pub fn end(&mut self, out: &mut [u8]) -> usize
        requires fit { Fit self.old.runs }
        requires in_bounds { (820 ≤ length out.old) × (self.old.known.lines + 1 < 2 ^ 64) }
        ensures { PrintedAll self.old result out.new }
    {
        end_all(
            &mut self.runs.xs,
            &mut self.runs.bs,
            &mut self.runs.ys,
            &mut self.runs.cs,
            &mut self.lent.items,
            &mut self.lent.rows,
            &mut self.lent.bytes,
            self.known,
            out,
        )
    }
}
