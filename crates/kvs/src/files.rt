// The files of a group's keys: how many keys a queue has, and its least sequence number. Only the numbers of the rows are read.
ghost use Rattle.std.specs.Prelude.{◌≡◌, cond, ◌+◌, ◌*◌, ◌/◌, ◌≤◌, length, get_or, Some};
ghost use Rattle.maps.specs.Lists.{least};
ghost use Rattle.pipe_log.specs.Rows.{queue_at};
ghost use Rattle.rules.specs.Items.{same_queue};
ghost use Rattle.kvs.specs.Calls.{LeastSeq, CountOf};

use crate::rows::ROW_WIDTH;
use pipe_log::LogQueue;

// Whether a row's queue number is that of the queue.
#[tactic(auto, using(crate::proofs::Queues::same_queue_is))]
pub fn is_of(number: u64, queue: LogQueue) -> bool
    ensures { result ≡ same_queue (queue_at number) queue }
{
    LogQueue::from(number) == queue
}

// The least of the queue's sequence numbers from row `i` on, where `rest` is that of the rows after it.
#[tactic(auto, unfolding(maps::specs::Lists::least))]
fn least_from(rows: &[u64], i: usize, queue: LogQueue, rest: Option<u64>) -> Option<u64>
    requires { i * 4 + 4 ≤ length rows.now }
    ensures { result ≡ cond (same_queue (queue_at (get_or rows.now (i * 4 + 2) 0)) queue) (least (Some (get_or rows.now (i * 4 + 3) 0)) rest) rest }
{
    if !is_of(rows[i * ROW_WIDTH + 2], queue) {
        return rest;
    }
    let seq = rows[i * ROW_WIDTH + 3];
    Some(rest.map_or(seq, |least| seq.min(least)))
}

// The least sequence number of the queue's keys, of which `rows` are the numbers.
#[tactic(auto, using(crate::proofs::Queues::least_more, crate::proofs::Queues::rest_none), unfolding(rules::specs::TableQueries::least_seq))]
pub fn least_seq(rows: &[u64], queue: LogQueue) -> Option<u64>
    ensures { LeastSeq (length rows.now / 4) rows.now queue result }
{
    let n = rows.len() / ROW_WIDTH;
    let mut found = None;
    for i in (0..n).rev() {
        found = least_from(rows, i, queue, found);
    }
    found
}

// The number of the queue's keys, of which `rows` are the numbers.
#[tactic(auto, using(crate::proofs::Queues::count_rest, crate::proofs::Queues::rest_none))]
pub fn count_of(rows: &[u64], queue: LogQueue) -> usize
    ensures { CountOf (length rows.now / 4) rows.now queue result }
{
    let n = rows.len() / ROW_WIDTH;
    let mut count = 0;
    for i in 0..n {
        if is_of(rows[i * ROW_WIDTH + 2], queue) {
            count += 1;
        }
    }
    count
}
