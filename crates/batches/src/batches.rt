// A batch on an area: its items in order, and back to where it began if one is refused.
ghost use Rattle.std.specs.Prelude.{None};
ghost use Rattle.std.specs.Prelude.{◌≡◌, ◌<◌, ◌*◌, drop};
ghost use Rattle.rules.specs.Items.{placed_from};
ghost use Rattle.rules.specs.Checks.{checks};
ghost use Rattle.rules.specs.Context.{limited, run};
ghost use Rattle.log_batch.specs.Batch.{count_in, item_in, items_in};
ghost use Rattle.log_batch.specs.Judged.{call_of};
ghost use Rattle.groups.specs.Undo.{Undoable};
ghost use Rattle.lists.specs.Rest.{cut_to};
ghost use Rattle.lists.specs.Rest as lists·rest;
ghost use Rattle.contexts.specs.Contexts.{context_of, Formed, Answered};
ghost use Rattle.batches.specs.Runs.{Keeping, Stepped, WentBack};

use crate::items::carry_out;
use lists::Counts;
use log_batch::open::{open_item, row_count};
use log_batch::{Call, LogBatch};
use pipe_log::{Cause, Refusal};

// Carries out item i of a batch that passed the checks.
pub fn turn(
    xs: &mut [u64],
    bs: &mut [u8],
    call: Call,
    batch: &LogBatch,
    i: usize,
    last: bool,
) -> Result<(), Cause>
    requires formed { Formed xs.old bs.old }
    requires undoable { Undoable xs.old bs.old }
    requires i_bound { i < count_in batch.now }
    requires passed { checks (call_of call) (items_in batch.now) ≡ None }
    requires keeping { Keeping (call_of call) (context_of xs.old bs.old) }
    ensures { Stepped (call_of call) (item_in i batch.now) last xs.old bs.old result xs.new bs.new }
{
    let opened = open_item(batch, i);
    let Ok(item) = opened else {
        return Ok(());
    };
    carry_out(xs, bs, call, item, batch.entries, batch.bytes, last)
}

// Takes an area back to where a batch began, which had so many tombstones and cleaned numbers.
pub fn go_back(xs: &mut [u64], bs: &mut [u8], counts: Counts)
    requires formed { Formed xs.old bs.old }
    requires undoable { Undoable xs.old bs.old }
    requires wf { lists·rest.Wf (cut_to counts.tombstones counts.cleaned (drop 9376 xs.old)) (drop 16384 bs.old) }
    ensures { WentBack counts.tombstones counts.cleaned xs.old bs.old xs.new bs.new }
{
    groups::undo(xs, bs);
    let a = groups::NUMBERS;
    lists::cut(&mut xs[a..], counts);
}

// Carries out the items of a batch that passed the checks, in order.
pub fn run_items(xs: &mut [u64], bs: &mut [u8], call: Call, batch: &LogBatch) -> Result<(), Refusal>
    requires formed { Formed xs.old bs.old }
    requires passed { checks (call_of call) (items_in batch.now) ≡ None }
    requires keeping { Keeping (call_of call) (context_of xs.old bs.old) }
    ensures { Answered (run limited (call_of call) (placed_from 0 (items_in batch.now))) xs.old bs.old result xs.new bs.new }
{
    let a = groups::NUMBERS;
    let counts = lists::counts_in(&xs[a..]);
    groups::begin(xs);
    let n = row_count(batch.items);
    for i in 0..n {
        if let Err(cause) = turn(xs, bs, call, batch, i, i + 1 == n) {
            go_back(xs, bs, counts);
            return Err(Refusal {
                cause,
                place: Some(i),
            });
        }
    }
    Ok(())
}
