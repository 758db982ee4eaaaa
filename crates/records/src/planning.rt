// What a fetch does, decided before anything is stored.
ghost use Rattle.memtable.specs.Views as table;
ghost use Rattle.memtable.specs.Fetches.{RangeAnswer};
ghost use Rattle.rules.specs.Queries.{in_group};
ghost use Rattle.contexts.specs.Contexts.{context_of, Wf};
ghost use Rattle.records.specs.Fetches.{query_of};
ghost use Rattle.records.specs.Plans.{Planned};

use crate::{Fetch, Plan};
use memtable::{Head, RowRange};
use pipe_log::{Cause, ENTRY_WIDTH};
use queries::{entry_rows, head_at, place_of};
use stretch::{ENTRIES_AT, STRETCH};

// The entries that a fetch answers.
fn range_of(head: Head, rows: &[u64], fetch: Fetch) -> Result<RowRange, Cause>
    requires { table.Wf head rows.now }
    ensures { RangeAnswer head rows.now (query_of fetch) result }
{
    match fetch {
        Fetch::EntriesTo {
            begin,
            end,
            max_size,
        } => head.range_to(rows, begin, end, max_size),
        Fetch::EntryIndexesBefore { gate } => head.range_before(rows, gate),
        Fetch::RewrittenEntryIndexes => head.range_rewritten(),
    }
}

// The plan for a fetch of a group's records into a list with room for so many, or its refusal. It takes the slices, since its contract
// speaks of rows of the numbers, and a clause sees of an `Area` the context alone. LLVM takes this into its callers, so that no plan or
// refusal goes through memory.
#[inline(always)]
pub fn plan(xs: &[u64], bs: &[u8], group: u64, fetch: Fetch, room: usize) -> Result<Plan, Cause>
    requires { Wf xs.now bs.now }
    ensures { Planned (in_group group (query_of fetch) (context_of xs.now bs.now)) xs.now room result }
{
    let k = place_of(xs, group)?;
    let head = head_at(xs, k);
    let range = range_of(head, entry_rows(xs, k), fetch)?;
    if room < range.count {
        return Err(Cause::ListTooShort);
    }
    Ok(Plan {
        at: k * STRETCH + ENTRIES_AT + range.from * ENTRY_WIDTH,
        first: head.first_index + range.from as u64,
        count: range.count,
    })
}
