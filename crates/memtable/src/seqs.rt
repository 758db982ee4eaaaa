// Sequence numbers and numbers of entries by queue.
ghost use Rattle.std.specs.Prelude.{◌≡◌, List, ℕ, ◌≤◌};
ghost use Rattle.pipe_log.specs.Rows.{window};
ghost use Rattle.rules.specs.TableQueries.{by_span};
ghost use Rattle.memtable.specs.Views.{Wf};
ghost use Rattle.memtable.specs.Queries.{front_seq, min_seq, entry_count, RewriteCountAnswer};

use crate::Head;
use pipe_log::{ENTRY_WIDTH, LogQueue, Span};

impl Head {
    // The sequence number of the front entry of a queue's run.
    pub fn min_entry_seq(self, part: &[u64], queue: LogQueue) -> Option<u64>
        requires { Wf self part.now }
        ensures { result ≡ front_seq queue (window self.first_index self.len part.now) }
    {
        let count = self.rewrite_count;
        match queue {
            LogQueue::Append => {
                if self.len <= count {
                    return None;
                }
                Some(part[count * ENTRY_WIDTH + 2])
            }
            LogQueue::Rewrite => {
                if count == 0 {
                    return None;
                }
                Some(part[2])
            }
        }
    }

    // For the Rewrite queue with a span: if `least` is at most the span's end, the lesser of it and the span's start.
    #[tactic(auto, unfolding(rules::specs::TableQueries::by_span))]
    pub fn by_span(self, queue: LogQueue, least: u64) -> u64
        ensures { result ≡ by_span queue self.atomic_group least }
    {
        let (LogQueue::Rewrite, Some(Span { start, end })) = (queue, self.atomic_group) else {
            return least;
        };
        if end < least {
            return least;
        }
        least.min(start)
    }

    // The least sequence number of a queue's entries and keys; `keys` is that of its keys.
    #[tactic(auto, unfolding(crate::specs::Queries::min_seq, maps::specs::Lists::least, maps::specs::Lists::map_option))]
    pub fn min_file_seq(self, part: &[u64], queue: LogQueue, keys: Option<u64>) -> Option<u64>
        requires { Wf self part.now }
        ensures { result ≡ min_seq queue self part.now keys }
    {
        let least = match (self.min_entry_seq(part, queue), keys) {
            (Some(entries), Some(keys)) => entries.min(keys),
            (entries, keys) => entries.or(keys)?,
        };
        Some(self.by_span(queue, least))
    }

    // The number of Rewrite entries, which stand at the front.
    pub fn rewrite_count(self) -> usize
        ensures { RewriteCountAnswer self result }
    {
        self.rewrite_count
    }

    // The number of a queue's entries.
    pub fn entry_count(self, queue: LogQueue) -> usize
        requires { self.rewrite_count ≤ self.len }
        ensures { (xs : List ℕ) → Wf self xs → result ≡ entry_count queue (window self.first_index self.len xs) }
    {
        let count = self.rewrite_count;
        match queue {
            LogQueue::Append => self.len - count,
            LogQueue::Rewrite => count,
        }
    }
}
