// The fetch for a caller that holds the list itself.
ghost use Rattle.rules.specs.Queries.{in_group};
ghost use Rattle.records.specs.Fetches.{query_of, Fetching};

use crate::fetching::fetch_records;
use crate::{Fetch, LISTED, Listed};
use contexts::Area;
use pipe_log::EntryIndex;

// Fetches a group's records into a list that comes and goes by value.
pub fn fetch_listed(area: &Area, group: u64, fetch: Fetch, list: [EntryIndex; LISTED]) -> Listed
    ensures { Fetching (in_group group (query_of fetch) area.now) list result.answer result.list }
{
    let mut list = list;
    let answer = fetch_records(area, group, fetch, &mut list);
    Listed { answer, list }
}
