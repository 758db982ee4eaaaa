// Replay of a marked batch of the Rewrite queue: it waits, or finishes what waited.
ghost use Rattle.std.specs.Prelude.{◌≡◌, length};
ghost use Rattle.rules.specs.Items.{Rewrite, placed_from};
ghost use Rattle.rules.specs.Context.{context};
ghost use Rattle.rules.specs.Waiting.{replay_marked};
ghost use Rattle.rules_by_group.specs.Kept.{KeptAt};
ghost use Rattle.log_batch.specs.Batch.{items_in};
ghost use Rattle.room.specs.Batches.{unmarked};
ghost use Rattle.room.specs.Parts.{part_for};
ghost use Rattle.contexts.specs.Contexts.{context_of, Formed, Answered};
ghost use Rattle.writes.specs.Accepting.{refusal_at, AcceptedIn};

use crate::finish::finish;
use contexts::{WAITING_BYTES_FROM, WAITING_FROM};
use log_batch::RewriteReplay;
use log_batch::mark::Mark;
use pipe_log::{Cause, Refusal};
use waiting::PartHead;

// Accepts the part of a marked batch in the room of the waiting parts.
fn accept(
    xs: &mut [u64],
    bs: &mut [u8],
    mark: Mark,
    seq: u64,
    replay: &RewriteReplay,
) -> Result<Option<usize>, Cause>
    requires xs_len { (length xs.old ≡ 17231) × (length bs.old ≡ 38912) }
    requires formed { Formed xs.old bs.old }
    ensures { AcceptedIn mark.raft_group_id (part_for mark.byte seq (unmarked (items_in replay.now.batch))) xs.old bs.old result xs.new bs.new }
{
    let a = WAITING_FROM;
    let e = a + room::NUMBERS;
    let c = WAITING_BYTES_FROM;
    let d = c + room::BYTES;
    let group = mark.raft_group_id;
    let new = PartHead {
        status: u64::from(mark.byte),
        start: seq,
        end: seq,
    };
    waiting::accept_batch(&mut xs[a..e], &mut bs[c..d], group, new, replay)
}

// The refusal of a marked batch that can't wait: a limit is met at the mark, and files go back at no item.
fn refusal_at(cause: Cause, at: usize) -> Refusal
    ensures { result ≡ refusal_at cause at }
{
    match cause {
        Cause::LimitPassed => Refusal {
            cause,
            place: Some(at),
        },
        _ => Refusal { cause, place: None },
    }
}

// Replays a marked batch that passed the checks.
pub fn replay_marked(
    xs: &mut [u64],
    bs: &mut [u8],
    mark: Mark,
    seq: u64,
    replay: &RewriteReplay,
) -> Result<(), Refusal>
    requires formed { Formed xs.old bs.old }
    requires kept_at { KeptAt (context Rewrite) (context_of xs.old bs.old) }
    ensures { Answered (replay_marked (record { at = mark.at; group = mark.raft_group_id; byte = mark.byte }) seq (placed_from 0 (items_in replay.now.batch))) xs.old bs.old result xs.new bs.new }
{
    match accept(xs, bs, mark, seq, replay) {
        Ok(None) => Ok(()),
        Ok(Some(k)) => finish(xs, bs, k, mark, seq, replay),
        Err(cause) => Err(refusal_at(cause, mark.at)),
    }
}
