// Records of rows stored into a lent list.
ghost use Rattle.std.specs.Prelude.{◌≡◌, length, drop};
ghost use Rattle.cells.specs.Part.{put};
ghost use Rattle.pipe_log.specs.Rows.{window};
ghost use Rattle.memtable.specs.Views.{row_at};
ghost use Rattle.records.specs.Filling.{Readable, Fillable};

use crate::Plan;
use pipe_log::EntryIndex;

// The record of row i of a plan's.
fn record_at(xs: &[u64], plan: Plan, i: usize) -> EntryIndex
    requires { Readable plan.at plan.first i xs.now }
    ensures { result ≡ row_at plan.first (drop plan.at xs.now) i }
{
    memtable::entry_at(&xs[plan.at..], i, plan.first + i as u64)
}

// Stores the records of a plan's rows, from the first place of the list.
pub fn fill_records(xs: &[u64], plan: Plan, out: &mut [EntryIndex])
    requires { Fillable plan.at plan.first plan.count xs.now (length out.old) }
    ensures { out.new ≡ put out.old 0 (window plan.first plan.count (drop plan.at xs.now)) }
{
    for i in 0..plan.count {
        out[i] = record_at(xs, plan, i);
    }
}
