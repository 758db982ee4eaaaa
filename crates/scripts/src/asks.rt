// Arguments and queries that a row names.
ghost use Rattle.rules.specs.Causes.{by_cause};
ghost use Rattle.std.specs.Prelude.{◌≡◌};
ghost use Rattle.scripts.specs.Arguments.{option_as, fetch_as, number_asked, count_asked};

use crate::row::Row;
use contexts::Area;
use pipe_log::{Cause, LogQueue};
use records::Fetch;

// The gate of a rewrite or the size of a fetch: none where the first number is 0, and otherwise the second.
pub fn option_of(given: u64, number: u64) -> Option<u64>
    ensures { result ≡ option_as given number }
{
    (given != 0).then_some(number)
}

// Numbers of a group: 10 first_index, 11 last_index, otherwise min_file_seq.
pub fn number(row: Row, area: &Area) -> Result<Option<u64>, Cause>
    ensures { by_cause result ≡ number_asked row area.now }
{
    match row.what {
        10 => index::first_index(area, row.group),
        11 => index::last_index(area, row.group),
        _ => index::min_file_seq(area, row.group, LogQueue::from(row.a)),
    }
}

// Counts of a group: 20 entry_count, 21 rewrite_count, otherwise key_count.
pub fn count(row: Row, area: &Area) -> Result<usize, Cause>
    ensures { by_cause result ≡ count_asked row area.now }
{
    match row.what {
        20 => index::entry_count(area, row.group),
        21 => index::rewrite_count(area, row.group),
        _ => index::key_count(area, row.group),
    }
}

// The fetch of records that a row names: 50 fetch_entries_to, 51 fetch_entry_indexes_before, otherwise
// fetch_rewritten_entry_indexes.
pub fn fetch_of(row: Row) -> Fetch
    ensures { result ≡ fetch_as row }
{
    match row.what {
        50 => Fetch::EntriesTo {
            begin: row.a,
            end: row.b,
            max_size: option_of(row.c, row.d),
        },
        51 => Fetch::EntryIndexesBefore { gate: row.a },
        _ => Fetch::RewrittenEntryIndexes,
    }
}
