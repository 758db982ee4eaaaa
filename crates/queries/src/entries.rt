// What is asked of a group's entries.
ghost use Rattle.std.specs.Prelude.{◌≡◌, length};
ghost use Rattle.rules.specs.Causes.{by_cause, Ok};
ghost use Rattle.rules.specs.Table.{first_index_of, last_index};
ghost use Rattle.rules.specs.TableQueries.{get_entry, rewrite_count, has_at_least_some_entries_before};
ghost use Rattle.rules.specs.Queries.{in_group};

use crate::places::{entry_rows, head_at, place_of};
use contexts::Area;
use pipe_log::{Cause, EntryIndex};

// The index of a group's first entry.
pub fn first_index(area: &Area, group: u64) -> Result<Option<u64>, Cause>
    ensures { by_cause result ≡ in_group group (λ t. Ok (first_index_of t.entries)) area.now }
{
    let k = place_of(area.xs, group)?;
    Ok(head_at(area.xs, k).first_index())
}

// The index of a group's last entry.
pub fn last_index(area: &Area, group: u64) -> Result<Option<u64>, Cause>
    ensures { by_cause result ≡ in_group group (λ t. Ok (last_index t.entries)) area.now }
{
    let k = place_of(area.xs, group)?;
    Ok(head_at(area.xs, k).last_index())
}

// The number of a group's Rewrite entries.
pub fn rewrite_count(area: &Area, group: u64) -> Result<usize, Cause>
    ensures { by_cause result ≡ in_group group (λ t. Ok (rewrite_count t)) area.now }
{
    let k = place_of(area.xs, group)?;
    Ok(head_at(area.xs, k).rewrite_count())
}

// The number of a group's entries.
pub fn entry_count(area: &Area, group: u64) -> Result<usize, Cause>
    ensures { by_cause result ≡ in_group group (λ t. Ok (length t.entries)) area.now }
{
    let k = place_of(area.xs, group)?;
    Ok(head_at(area.xs, k).len)
}

// The record at an index of a group, if it is held.
pub fn get_entry(area: &Area, group: u64, index: u64) -> Result<Option<EntryIndex>, Cause>
    ensures { by_cause result ≡ in_group group (λ t. Ok (get_entry index t)) area.now }
{
    let k = place_of(area.xs, group)?;
    Ok(head_at(area.xs, k).get_entry(entry_rows(area.xs, k), index))
}

// Whether a group's entry at place `count` − 1 has a sequence number up to the gate's.
pub fn has_at_least_some_entries_before(
    area: &Area,
    group: u64,
    gate: u64,
    count: usize,
) -> Result<bool, Cause>
    ensures { by_cause result ≡ in_group group (has_at_least_some_entries_before gate count) area.now }
{
    let k = place_of(area.xs, group)?;
    head_at(area.xs, k).has_at_least_some_entries_before(entry_rows(area.xs, k), gate, count)
}
