// Replay of a batch into a context of its file's queue.
ghost use Rattle.rules.specs.Calls as rules·calls;
ghost use Rattle.log_batch.specs.Batch.{batch_in};
ghost use Rattle.contexts.specs.Contexts.{Wf, Called};

use crate::writes::write;
use log_batch::{Call, LogBatch};
use pipe_log::{Cause, FileId, LogQueue, Refusal};

// Replays a batch into a context of its file's queue.
pub fn replay(xs: &mut [u64], bs: &mut [u8], file: FileId, batch: &LogBatch) -> Result<(), Refusal>
    requires { Wf xs.old bs.old }
    ensures { Called (rules·calls.replay (batch_in file batch.now)) xs.old bs.old result xs.new bs.new }
{
    let a = groups::NUMBERS;
    let kind = lists::kind_in(&xs[a..]);
    let queue = file.queue;
    let seq = file.seq;
    if !kind.is_context(queue) {
        return Err(Refusal::from(Cause::WrongKind));
    }
    match queue {
        LogQueue::Append => write(xs, bs, Call::ReplayAppend, seq, batch),
        LogQueue::Rewrite => write(xs, bs, Call::ReplayRewrite, seq, batch),
    }
}
