// What a group answers of its entries.
ghost use Rattle.std.specs.Prelude.{◌+◌, ◌≤◌, ◌^◌};
ghost use Rattle.memtable.specs.Views.{Wf};
ghost use Rattle.memtable.specs.Queries.{EntryAnswer, FirstAnswer, LastAnswer, SomeBeforeAnswer};

use crate::Head;
use crate::rows::entry_at;
use pipe_log::{Cause, ENTRY_WIDTH, EntryIndex};

impl Head {
    // The record at an index, if it is held.
    pub fn get_entry(self, part: &[u64], index: u64) -> Option<EntryIndex>
        requires { Wf self part.now }
        ensures { EntryAnswer self part.now index result }
    {
        let first = self.first_index;
        if index < first {
            return None;
        }
        let at = (index - first) as usize;
        if self.len <= at {
            return None;
        }
        Some(entry_at(part, at, index))
    }

    // The index of the first entry.
    pub fn first_index(self) -> Option<u64>
        ensures { FirstAnswer self result }
    {
        if self.len == 0 {
            return None;
        }
        Some(self.first_index)
    }

    // The index of the last entry.
    pub fn last_index(self) -> Option<u64>
        requires { self.first_index + self.len ≤ 2 ^ 63 }
        ensures { LastAnswer self result }
    {
        let len = self.len;
        if len == 0 {
            return None;
        }
        Some(self.first_index + (len - 1) as u64)
    }

    // Whether the entry at place `count` − 1 has a sequence number up to the gate's.
    pub fn has_at_least_some_entries_before(
        self,
        part: &[u64],
        gate: u64,
        count: usize,
    ) -> Result<bool, Cause>
        requires { Wf self part.now }
        ensures { SomeBeforeAnswer self part.now gate count result }
    {
        if count == 0 {
            return Err(Cause::BadRange);
        }
        if self.len < count {
            return Ok(false);
        }
        let at = (count - 1) * ENTRY_WIDTH + 2;
        Ok(part[at] <= gate)
    }
}
