// A batch on an area: checked, and then carried out, as a marked batch if a Rewrite replay has a mark.
ghost use Rattle.std.specs.Prelude.{◌≡◌, None};
ghost use Rattle.rules.specs.Items.{placed_from};
ghost use Rattle.rules.specs.Checks.{checks};
ghost use Rattle.rules.specs.Context.{limited, run};
ghost use Rattle.log_batch.specs.Batch.{items_in};
ghost use Rattle.log_batch.specs.Judged.{call_of};
ghost use Rattle.contexts.specs.Contexts.{context_of, Formed, Answered};
ghost use Rattle.batches.specs.Runs.{Keeping};
ghost use Rattle.batches.specs.Singles.{SingleList};
ghost use Rattle.writes.specs.Writes.{written};

use crate::marked::replay_marked;
use batches::{
    append_list, is_single_list, is_single_put, rewrite_list, run_items, run_list, run_put,
};
use log_batch::checks::mark_for;
use log_batch::{Call, LogBatch, RewriteReplay, check};
use pipe_log::Refusal;

// Carries out a batch that passed the checks.
fn run_checked(
    xs: &mut [u64],
    bs: &mut [u8],
    call: Call,
    seq: u64,
    batch: &LogBatch,
) -> Result<(), Refusal>
    requires formed { Formed xs.old bs.old }
    requires passed { checks (call_of call) (items_in batch.now) ≡ None }
    requires keeping { Keeping (call_of call) (context_of xs.old bs.old) }
    ensures { Answered (written (call_of call) seq (items_in batch.now)) xs.old bs.old result xs.new bs.new }
{
    match mark_for(call, batch) {
        None => run_items(xs, bs, call, batch),
        Some(mark) => replay_marked(xs, bs, mark, seq, &RewriteReplay { batch: *batch }),
    }
}

// Checks a batch and carries it out. Its caller tries one list of entries first.
fn check_and_run(
    xs: &mut [u64],
    bs: &mut [u8],
    call: Call,
    seq: u64,
    batch: &LogBatch,
) -> Result<(), Refusal>
    requires formed { Formed xs.old bs.old }
    requires keeping { Keeping (call_of call) (context_of xs.old bs.old) }
    ensures { Answered (written (call_of call) seq (items_in batch.now)) xs.old bs.old result xs.new bs.new }
{
    if is_single_put(call, batch.items, batch.bytes) {
        return run_put(xs, bs, call, batch);
    }
    check(call, batch)?;
    run_checked(xs, bs, call, seq, batch)
}

// Carries out a batch of one list of entries, at once and by plain numbers.
#[inline(always)]
fn write_list(xs: &mut [u64], bs: &mut [u8], call: Call, batch: &LogBatch) -> Result<(), Refusal>
    requires formed { Formed xs.old bs.old }
    requires single_list { SingleList call batch.now.items.now batch.now.entries.now batch.now.bytes.now }
    requires keeping { Keeping (call_of call) (context_of xs.old bs.old) }
    ensures { Answered (run limited (call_of call) (placed_from 0 (items_in batch.now))) xs.old bs.old result xs.new bs.new }
{
    match call {
        Call::LiveAppend => append_list(xs, bs, true, batch),
        Call::ReplayAppend => append_list(xs, bs, false, batch),
        Call::LiveRewrite { gate, seq } => rewrite_list(xs, bs, gate, seq, batch),
        Call::ReplayRewrite => run_list(xs, bs, call, batch),
    }
}

// Writes a batch of a file. One list of entries goes to its group at once. LLVM takes this into each of the calls, which knows what it is;
// a function that they share would be handed the slices by copies.
#[inline(always)]
pub fn write(
    xs: &mut [u64],
    bs: &mut [u8],
    call: Call,
    seq: u64,
    batch: &LogBatch,
) -> Result<(), Refusal>
    requires formed { Formed xs.old bs.old }
    requires keeping { Keeping (call_of call) (context_of xs.old bs.old) }
    ensures { Answered (written (call_of call) seq (items_in batch.now)) xs.old bs.old result xs.new bs.new }
{
    if is_single_list(batch.items, batch.entries, call.writes()) {
        return write_list(xs, bs, call, batch);
    }
    check_and_run(xs, bs, call, seq, batch)
}
