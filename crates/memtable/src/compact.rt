// Compaction: entries are dropped from the front.
ghost use Rattle.memtable.specs.Views.{Wf};
ghost use Rattle.memtable.specs.Compaction.{Compaction};

use crate::{Compacted, Head};
use pipe_log::ENTRY_WIDTH;

impl Head {
    // Removes all entries with an index below `index`.
    pub fn compact_to(self, part: &mut [u64], index: u64) -> Compacted
        requires { Wf self part.old }
        ensures { Compaction self part.old index result part.new }
    {
        let first = self.first_index;
        if index <= first {
            return Compacted {
                head: self,
                count: 0,
            };
        }
        let len = self.len;
        let count = ((index - first) as usize).min(len);
        let left = len - count;
        cells::shift(part, count * ENTRY_WIDTH, 0, left * ENTRY_WIDTH);
        let old = self.rewrite_count;
        let gone = count.min(old);
        let head = Head {
            first_index: first + count as u64,
            len: left,
            rewrite_count: old - gone,
            ..self
        };
        Compacted {
            head,
            count: count as u64,
        }
    }
}
