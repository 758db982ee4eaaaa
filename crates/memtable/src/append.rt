// Rows laid over a group's entries: what is below their first index stays, and the rows follow.
ghost use Rattle.std.specs.Prelude.{◌+◌, ◌≤◌, ◌<◌, ◌/◌, ◌^◌, length};
ghost use Rattle.pipe_log.specs.Rows.{window};
ghost use Rattle.rules.specs.Causes.{Ok};
ghost use Rattle.rules.specs.Table.{appended, replayed_rewrite};
ghost use Rattle.memtable.specs.Views.{Wf};
ghost use Rattle.memtable.specs.Appends.{queue_bit, rewrites_before, Lent, Laying, laid_by};
ghost use Rattle.memtable.specs.Preparing.{behind, Preparing};

use crate::Head;
use pipe_log::{Cause, ENTRY_WIDTH};

impl Head {
    // `overwrite`: rows that start below the first entry drop all. `hole`: rows that leave a gap drop all.
    fn prepare_append(self, first: u64, overwrite: bool, hole: bool) -> Result<usize, Cause>
        requires { self.first_index + self.len ≤ 2 ^ 63 }
        ensures { Preparing overwrite hole self first result }
    {
        let len = self.len;
        if len == 0 {
            return Ok(0);
        }
        let start = self.first_index;
        if first < start {
            if overwrite {
                return Ok(0);
            }
            return Err(Cause::BelowFirst);
        }
        if start + (len as u64) < first {
            if hole {
                return Ok(0);
            }
            return Err(Cause::AboveLast);
        }
        Ok((first - start) as usize)
    }

    // Lays the rows in behind the first `kept` entries, if there is room. `rewrite`: they are of the Rewrite queue.
    fn lay_rows(
        self,
        part: &mut [u64],
        kept: usize,
        first: u64,
        rows: &[u64],
        rewrite: bool,
    ) -> Result<Head, Cause>
        requires wf { Wf self part.old }
        requires lent { Lent (queue_bit rewrite) first rows.now }
        requires kept_le_len { (kept ≤ self.len) × (kept ≤ first) × (rewrites_before rewrite kept ≤ self.rewrite_count) × (0 < length rows.now) }
        ensures { Laying (λ t. Ok (behind kept first part.old (length rows.now / 8) rows.now t)) self part.old rows.now result part.new }
    {
        let at = kept * ENTRY_WIDTH;
        if part.len() - at < rows.len() {
            return Err(Cause::LimitPassed);
        }
        cells::copy_in(part, at, rows);
        let len = kept + rows.len() / ENTRY_WIDTH;
        let start = first - kept as u64;
        if rewrite {
            return Ok(Head {
                first_index: start,
                len,
                rewrite_count: len,
                ..self
            });
        }
        Ok(Head {
            first_index: start,
            len,
            rewrite_count: self.rewrite_count.min(kept),
            ..self
        })
    }

    // Lays the rows over the entries, from index `first` on.
    fn lay(
        self,
        part: &mut [u64],
        first: u64,
        rows: &[u64],
        overwrite: bool,
        hole: bool,
        rewrite: bool,
    ) -> Result<Head, Cause>
        requires wf { Wf self part.old }
        requires lent { Lent (queue_bit rewrite) first rows.now }
        requires len_bound { rewrites_before rewrite self.len ≤ self.rewrite_count }
        ensures { Laying (laid_by overwrite hole (window first (length rows.now / 8) rows.now)) self part.old rows.now result part.new }
    {
        if rows.len() == 0 {
            return Ok(self);
        }
        let kept = self.prepare_append(first, overwrite, hole)?;
        self.lay_rows(part, kept, first, rows, rewrite)
    }

    // Appends entries of the Append queue, live or replayed.
    pub fn append(
        self,
        part: &mut [u64],
        first: u64,
        rows: &[u64],
        live: bool,
    ) -> Result<Head, Cause>
        requires wf { Wf self part.old }
        requires lent { Lent 0 first rows.now }
        ensures { Laying (appended live (window first (length rows.now / 8) rows.now)) self part.old rows.now result part.new }
    {
        self.lay(part, first, rows, !live, false, false)
    }

    // Replays entries of the Rewrite queue on a group that has no others.
    pub fn replay_rewrite(self, part: &mut [u64], first: u64, rows: &[u64]) -> Result<Head, Cause>
        requires wf { Wf self part.old }
        requires lent { Lent 1 first rows.now }
        requires len_bound { self.len ≤ self.rewrite_count }
        ensures { Laying (λ t. Ok (replayed_rewrite (window first (length rows.now / 8) rows.now) t)) self part.old rows.now result part.new }
    {
        self.lay(part, first, rows, true, true, true)
    }

    // Lays the entries of an Append table over a group, a gap dropping all: the join.
    pub fn merge_append_table(
        self,
        part: &mut [u64],
        first: u64,
        rows: &[u64],
    ) -> Result<Head, Cause>
        requires wf { Wf self part.old }
        requires lent { Lent 0 first rows.now }
        ensures { Laying (λ t. Ok (replayed_rewrite (window first (length rows.now / 8) rows.now) t)) self part.old rows.now result part.new }
    {
        self.lay(part, first, rows, true, true, false)
    }
}
