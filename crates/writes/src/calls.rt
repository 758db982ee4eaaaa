// The live calls of a batch: append and rewrite on the index.
ghost use Rattle.std.specs.Prelude.{◌≡◌, ◌&&◌};
ghost use Rattle.rules.specs.Items.{same_queue};
ghost use Rattle.rules.specs.Context as rules;
ghost use Rattle.rules.specs.Calls as rules·calls;
ghost use Rattle.log_batch.specs.Batch.{batch_in};
ghost use Rattle.lists.specs.Calls.{kind_as};
ghost use Rattle.contexts.specs.Contexts.{Wf, Called};

use crate::writes::write;
use lists::Kind;
use log_batch::{Call, LogBatch};
use pipe_log::{Cause, FileId, LogQueue, Refusal};

// Whether an area is the index and a batch's file is of the queue that the call writes.
fn takes(kind: Kind, file: LogQueue, writes: LogQueue) -> bool
    ensures { result ≡ rules.is_index (kind_as kind) && same_queue file writes }
{
    kind.is_index() && file == writes
}

// Appends a batch to the index.
pub fn append(xs: &mut [u64], bs: &mut [u8], file: FileId, batch: &LogBatch) -> Result<(), Refusal>
    requires { Wf xs.old bs.old }
    ensures { Called (rules·calls.append (batch_in file batch.now)) xs.old bs.old result xs.new bs.new }
{
    let a = groups::NUMBERS;
    let kind = lists::kind_in(&xs[a..]);
    let queue = file.queue;
    let seq = file.seq;
    if !takes(kind, queue, LogQueue::Append) {
        return Err(Refusal::from(Cause::WrongKind));
    }
    write(xs, bs, Call::LiveAppend, seq, batch)
}

// Rewrites a batch in the index, gated or not; a key's new number is the batch's.
pub fn rewrite(
    xs: &mut [u64],
    bs: &mut [u8],
    gate: Option<u64>,
    file: FileId,
    batch: &LogBatch,
) -> Result<(), Refusal>
    requires { Wf xs.old bs.old }
    ensures { Called (rules·calls.rewrite gate (batch_in file batch.now)) xs.old bs.old result xs.new bs.new }
{
    let a = groups::NUMBERS;
    let kind = lists::kind_in(&xs[a..]);
    let queue = file.queue;
    let seq = file.seq;
    if !takes(kind, queue, LogQueue::Rewrite) {
        return Err(Refusal::from(Cause::WrongKind));
    }
    write(xs, bs, Call::LiveRewrite { gate, seq }, seq, batch)
}
