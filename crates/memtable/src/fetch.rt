// The rows that a fetch answers.
ghost use Rattle.rules.specs.Causes.{Ok};
ghost use Rattle.rules.specs.TableQueries.{fetch_entries_to, fetch_entry_indexes_before};
ghost use Rattle.memtable.specs.Views.{Wf};
ghost use Rattle.memtable.specs.Fetches.{RangeAnswer, RewrittenAnswer};

use crate::scans::{count_before, count_to_size};
use crate::{Head, RowRange};
use pipe_log::Cause;

impl Head {
    // The entries with indexes in [begin, end), up to a size.
    pub fn range_to(
        self,
        part: &[u64],
        begin: u64,
        end: u64,
        max_size: Option<u64>,
    ) -> Result<RowRange, Cause>
        requires { Wf self part.now }
        ensures { RangeAnswer self part.now (fetch_entries_to begin end max_size) result }
    {
        if end <= begin {
            return Ok(RowRange { from: 0, count: 0 });
        }
        let entries = self.len;
        if entries == 0 {
            return Err(Cause::EntryNotFound);
        }
        let first = self.first_index;
        if begin < first {
            return Err(Cause::EntryCompacted);
        }
        if first + (entries as u64) < end {
            return Err(Cause::EntryNotFound);
        }
        let from = (begin - first) as usize;
        let count = (end - begin) as usize;
        match max_size {
            None => Ok(RowRange { from, count }),
            Some(size) => Ok(RowRange {
                from,
                count: count_to_size(part, from, count, size),
            }),
        }
    }

    // The Append entries from the front while their file is at most the gate.
    pub fn range_before(self, part: &[u64], gate: u64) -> Result<RowRange, Cause>
        requires { Wf self part.now }
        ensures { RangeAnswer self part.now (λ t. Ok (fetch_entry_indexes_before gate t)) result }
    {
        let from = self.rewrite_count;
        Ok(RowRange {
            from,
            count: count_before(part, from, self.len - from, gate),
        })
    }

    // All Rewrite entries.
    pub fn range_rewritten(self) -> Result<RowRange, Cause>
        ensures { RewrittenAnswer self result }
    {
        Ok(RowRange {
            from: 0,
            count: self.rewrite_count,
        })
    }
}
