// The fetch itself: it carries a plan out, and decides nothing.
ghost use Rattle.rules.specs.Queries.{in_group};
ghost use Rattle.records.specs.Fetches.{query_of, Fetching};

use crate::Fetch;
use crate::fill::fill_records;
use crate::planning::plan;
use contexts::Area;
use pipe_log::{Cause, EntryIndex};

// Fetches a group's records into a lent list, from its first place.
pub fn fetch_records(
    area: &Area,
    group: u64,
    fetch: Fetch,
    out: &mut [EntryIndex],
) -> Result<usize, Cause>
    ensures { Fetching (in_group group (query_of fetch) area.now) out.old result out.new }
{
    let plan = plan(area.xs, area.bs, group, fetch, out.len())?;
    fill_records(area.xs, plan, out);
    Ok(plan.count)
}
