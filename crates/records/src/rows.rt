// The fetches into a lent list of rows of eight numbers, one for each record: a list of records that C can read, since no struct is
// lent.
ghost use Rattle.std.specs.Prelude.{◌≡◌, ◌+◌, ◌≤◌, ◌/◌, length, drop};
ghost use Rattle.cells.specs.Part.{put};
ghost use Rattle.pipe_log.specs.Rows.{window};
ghost use Rattle.rules.specs.Causes.{Ok};
ghost use Rattle.rules.specs.TableQueries.{fetch_entries_to, fetch_entry_indexes_before, fetch_rewritten_entry_indexes};
ghost use Rattle.rules.specs.Queries.{in_group};
ghost use Rattle.records.specs.Fetches.{query_of};
ghost use Rattle.records.specs.Filling.{Fillable};
ghost use Rattle.records.specs.Rows.{cells_of, rows_of, RowsFetched};

use crate::planning::plan;
use crate::{Fetch, Plan};
use contexts::Area;
use pipe_log::{Cause, ENTRY_WIDTH};

// Lays the row of `xs` from place `from` on, with an index of its own, in from place `to` on.
fn lay_row(xs: &[u64], from: usize, index: u64, out: &mut [u64], to: usize)
    requires { (from + 8 ≤ length xs.now) × (to + 8 ≤ length out.old) }
    ensures { out.new ≡ put out.old to (cells_of index from xs.now) }
{
    let row = [
        index,
        xs[from + 1],
        xs[from + 2],
        xs[from + 3],
        xs[from + 4],
        xs[from + 5],
        xs[from + 6],
        xs[from + 7],
    ];
    cells::copy_in(out, to, &row);
}

// Lays the records of a plan's rows in from the first place of the list.
fn fill_rows(xs: &[u64], plan: Plan, out: &mut [u64])
    requires { Fillable plan.at plan.first plan.count xs.now (length out.old / 8) }
    ensures { out.new ≡ put out.old 0 (rows_of (window plan.first plan.count (drop plan.at xs.now))) }
{
    for i in 0..plan.count {
        let to = i * ENTRY_WIDTH;
        lay_row(xs, plan.at + to, plan.first + i as u64, out, to);
    }
}

// Fetches a group's records into a lent list of rows. LLVM takes this into each of the calls, which knows what it fetches.
#[inline(always)]
fn fetch_rows(area: &Area, group: u64, fetch: Fetch, out: &mut [u64]) -> Result<usize, Cause>
    ensures { RowsFetched (in_group group (query_of fetch) area.now) out.old result out.new }
{
    let plan = plan(area.xs, area.bs, group, fetch, out.len() / ENTRY_WIDTH)?;
    fill_rows(area.xs, plan, out);
    Ok(plan.count)
}

// Fetches a group's entries with indexes in [begin, end), up to a size.
pub fn fetch_rows_to(
    area: &Area,
    group: u64,
    begin: u64,
    end: u64,
    max_size: Option<u64>,
    out: &mut [u64],
) -> Result<usize, Cause>
    ensures { RowsFetched (in_group group (fetch_entries_to begin end max_size) area.now) out.old result out.new }
{
    let fetch = Fetch::EntriesTo {
        begin,
        end,
        max_size,
    };
    fetch_rows(area, group, fetch, out)
}

// Fetches a group's Append entries from the front while their file is at most the gate.
pub fn fetch_rows_before(
    area: &Area,
    group: u64,
    gate: u64,
    out: &mut [u64],
) -> Result<usize, Cause>
    ensures { RowsFetched (in_group group (λ t. Ok (fetch_entry_indexes_before gate t)) area.now) out.old result out.new }
{
    fetch_rows(area, group, Fetch::EntryIndexesBefore { gate }, out)
}

// Fetches all Rewrite entries of a group.
pub fn fetch_rewritten_rows(area: &Area, group: u64, out: &mut [u64]) -> Result<usize, Cause>
    ensures { RowsFetched (in_group group (λ t. Ok (fetch_rewritten_entry_indexes t)) area.now) out.old result out.new }
{
    fetch_rows(area, group, Fetch::RewrittenEntryIndexes, out)
}
