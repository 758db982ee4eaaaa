// Fetches of a group's records into lent slices, one for each field of a row. The lent list is as long as the shortest of them.
ghost use Rattle.rules.specs.Causes.{Ok};
ghost use Rattle.rules.specs.TableQueries.{fetch_entries_to, fetch_entry_indexes_before, fetch_rewritten_entry_indexes};
ghost use Rattle.rules.specs.Queries.{in_group};
ghost use Rattle.memtable.specs.Columns.{columns};
ghost use Rattle.columns.specs.Fetches.{EntriesFetched};

use crate::slices::answer_rows;
use contexts::Area;
use pipe_log::Cause;
use queries::{entry_rows, head_at, place_of};

// Fetches a group's entries with indexes in [begin, end), up to a size.
pub fn fetch_entries_to(
    area: &Area,
    group: u64,
    begin: u64,
    end: u64,
    max_size: Option<u64>,
    index: &mut [u64],
    queue: &mut [u64],
    seq: &mut [u64],
    offset: &mut [u64],
    len: &mut [u64],
    compression: &mut [u64],
    entry_offset: &mut [u64],
    entry_len: &mut [u64],
) -> Result<usize, Cause>
    ensures { EntriesFetched (in_group group (fetch_entries_to begin end max_size) area.now) (columns index.old queue.old seq.old offset.old len.old compression.old entry_offset.old entry_len.old) result (columns index.new queue.new seq.new offset.new len.new compression.new entry_offset.new entry_len.new) }
{
    let k = place_of(area.xs, group)?;
    let head = head_at(area.xs, k);
    let rows = entry_rows(area.xs, k);
    let range = head.range_to(rows, begin, end, max_size)?;
    answer_rows(
        head,
        rows,
        range,
        index,
        queue,
        seq,
        offset,
        len,
        compression,
        entry_offset,
        entry_len,
    )
}

// Fetches a group's Append entries from the front while their file is at most the gate.
pub fn fetch_entry_indexes_before(
    area: &Area,
    group: u64,
    gate: u64,
    index: &mut [u64],
    queue: &mut [u64],
    seq: &mut [u64],
    offset: &mut [u64],
    len: &mut [u64],
    compression: &mut [u64],
    entry_offset: &mut [u64],
    entry_len: &mut [u64],
) -> Result<usize, Cause>
    ensures { EntriesFetched (in_group group (λ t. Ok (fetch_entry_indexes_before gate t)) area.now) (columns index.old queue.old seq.old offset.old len.old compression.old entry_offset.old entry_len.old) result (columns index.new queue.new seq.new offset.new len.new compression.new entry_offset.new entry_len.new) }
{
    let k = place_of(area.xs, group)?;
    let head = head_at(area.xs, k);
    let rows = entry_rows(area.xs, k);
    let range = head.range_before(rows, gate)?;
    answer_rows(
        head,
        rows,
        range,
        index,
        queue,
        seq,
        offset,
        len,
        compression,
        entry_offset,
        entry_len,
    )
}

// Fetches all Rewrite entries of a group.
pub fn fetch_rewritten_entry_indexes(
    area: &Area,
    group: u64,
    index: &mut [u64],
    queue: &mut [u64],
    seq: &mut [u64],
    offset: &mut [u64],
    len: &mut [u64],
    compression: &mut [u64],
    entry_offset: &mut [u64],
    entry_len: &mut [u64],
) -> Result<usize, Cause>
    ensures { EntriesFetched (in_group group (λ t. Ok (fetch_rewritten_entry_indexes t)) area.now) (columns index.old queue.old seq.old offset.old len.old compression.old entry_offset.old entry_len.old) result (columns index.new queue.new seq.new offset.new len.new compression.new entry_offset.new entry_len.new) }
{
    let k = place_of(area.xs, group)?;
    let head = head_at(area.xs, k);
    let rows = entry_rows(area.xs, k);
    let range = head.range_rewritten()?;
    answer_rows(
        head,
        rows,
        range,
        index,
        queue,
        seq,
        offset,
        len,
        compression,
        entry_offset,
        entry_len,
    )
}
