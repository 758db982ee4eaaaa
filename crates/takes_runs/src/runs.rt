// The runs that are read: a line on the run that is being read, and that run merged into those before it.
ghost use Rattle.std.specs.Prelude.{◌≤◌, length};
ghost use Rattle.rules.specs.Items.{Append};
ghost use Rattle.contexts.specs.Contexts.{FreshArea};
ghost use Rattle.takes_lines.specs.Views.{answer_line};
ghost use Rattle.takes_runs.specs.Steps.{AppendArea, runs_of, said_of, Says, Zeroed, Fit, ReplayedBeside, MergedRun, TookLine};

use crate::calls::{merge, replay};
use index::{BYTES, LogBatch, NUMBERS};
use pipe_log::{FileId, LogQueue, Refusal};
use takes_lines::output::{malformed_line, refusal_line};
use takes_lines::{Line, Malformed};

// The areas of the runs merged so far, and those of the run that is being read.
#[derive(Drop)]
pub struct Runs {
    pub xs: [u64; NUMBERS],
    pub bs: [u8; BYTES],
    pub ys: [u64; NUMBERS],
    pub cs: [u8; BYTES],
}

impl Runs {
    // Room for both.
    pub fn zeroed() -> Self
        ensures { Zeroed result }
    {
        Runs {
            xs: [0; NUMBERS],
            bs: [0; BYTES],
            ys: [0; NUMBERS],
            cs: [0; BYTES],
        }
    }

    // Before the first run: both are fresh.
    pub fn begin(&mut self)
        ensures merged { FreshArea Append self.new.xs self.new.bs }
        ensures run { FreshArea Append self.new.ys self.new.cs }
    {
        index::fresh(&mut self.xs, &mut self.bs, LogQueue::Append);
        index::fresh(&mut self.ys, &mut self.cs, LogQueue::Append);
    }
}

// Prints the refusal of line n, if a call was refused; the answer is the number of bytes.
fn say(answer: Result<(), Refusal>, n: u64, out: &mut [u8]) -> usize
    requires { 44 ≤ length out.old }
    ensures { Says (said_of n answer) result out.new }
{
    match answer {
        Ok(()) => 0,
        Err(refusal) => refusal_line(out, n, refusal.cause.number()),
    }
}

// Replays the batch of line n into the run that is being read.
fn replay_line(
    ys: &mut [u64],
    cs: &mut [u8],
    file: FileId,
    batch: &LogBatch,
    n: u64,
    out: &mut [u8],
) -> usize
    requires append_area { AppendArea ys.old cs.old }
    requires in_bounds { 44 ≤ length out.old }
    ensures { ReplayedBeside file batch.now.items.now batch.now.entries.now batch.now.bytes.now n ys.old cs.old result out.new ys.new cs.new }
{
    let answer = replay(ys, cs, file, batch);
    say(answer, n, out)
}

// Merges the run that was read into those before it; the next run is fresh.
pub fn merge_run(
    xs: &mut [u64],
    bs: &mut [u8],
    ys: &mut [u64],
    cs: &mut [u8],
    n: u64,
    out: &mut [u8],
) -> usize
    requires fit { Fit (runs_of xs.old bs.old ys.old cs.old) }
    requires in_bounds { 44 ≤ length out.old }
    ensures { MergedRun n (runs_of xs.old bs.old ys.old cs.old) result out.new (runs_of xs.new bs.new ys.new cs.new) }
{
    let answer = merge(xs, bs, ys, cs);
    index::fresh(ys, cs, LogQueue::Append);
    say(answer, n, out)
}

// Takes line n, which is a batch, the next run, or malformed.
#[tactic(auto, unfolding(takes_lines::specs::Views::answer_line))]
pub fn take_line(
    xs: &mut [u64],
    bs: &mut [u8],
    ys: &mut [u64],
    cs: &mut [u8],
    line: Result<Line, Malformed>,
    batch: &LogBatch,
    n: u64,
    out: &mut [u8],
) -> usize
    requires fit { Fit (runs_of xs.old bs.old ys.old cs.old) }
    requires in_bounds { 44 ≤ length out.old }
    ensures { TookLine n (answer_line line batch.now.items.now batch.now.entries.now batch.now.bytes.now) (runs_of xs.old bs.old ys.old cs.old) result out.new (runs_of xs.new bs.new ys.new cs.new) }
{
    let Ok(said) = line else {
        return malformed_line(out, n);
    };
    match said {
        Line::NextRun => merge_run(xs, bs, ys, cs, n, out),
        Line::Batch(file) => replay_line(ys, cs, file, batch, n, out),
    }
}

// The same calls where one struct holds the areas.
impl Runs {
    // Merges the run that was read into those before it; the next run is fresh.
    pub fn merge_run(&mut self, n: u64, out: &mut [u8]) -> usize
        requires fit { Fit self.old }
        requires in_bounds { 44 ≤ length out.old }
        ensures { MergedRun n self.old result out.new self.new }
    {
        merge_run(
            &mut self.xs,
            &mut self.bs,
            &mut self.ys,
            &mut self.cs,
            n,
            out,
        )
    }

    // Takes line n, which is a batch, the next run, or malformed.
    pub fn take_line(
        &mut self,
        line: Result<Line, Malformed>,
        batch: &LogBatch,
        n: u64,
        out: &mut [u8],
    ) -> usize
        requires fit { Fit self.old }
        requires in_bounds { 44 ≤ length out.old }
        ensures { TookLine n (answer_line line batch.now.items.now batch.now.entries.now batch.now.bytes.now) self.old result out.new self.new }
    {
        take_line(
            &mut self.xs,
            &mut self.bs,
            &mut self.ys,
            &mut self.cs,
            line,
            batch,
            n,
            out,
        )
    }
}

#[cfg(test)]
mod tests {
    use super::*;
    use crate::totals::{TOTALS_MOST, totals};
    use takes_lines::Lent;

    // A line of document 01's example, a malformed one, and the end of the run, with what the program prints for them.
    #[test]
    fn lines_are_taken(rt: HostRuntime) {
        let mut runs = Runs::zeroed();
        runs.begin();
        let mut lent = Lent::new();
        let line = lent.read_line(b"E,7,1,1,10,10,10");
        let batch = LogBatch {
            items: &lent.items,
            entries: &lent.rows,
            bytes: &lent.bytes,
        };
        let mut out = [0u8; TOTALS_MOST];
        assert_eq!(rt; runs.take_line(line, &batch, 1, &mut out), 0);
        let printed = runs.take_line(Err(Malformed), &batch, 2, &mut out);
        assert!(rt; &out[..printed] == b"B,2\n".as_slice());
        assert_eq!(rt; runs.merge_run(2, &mut out), 0);
        let printed = totals(&runs.xs, &runs.bs, &mut out);
        assert!(rt; &out[..printed] == b"G,7,1,3,0\nL,3,0\n".as_slice());
    }
}
