// Records answered in eight lent slices, one for each field of a row. The list that they make is as long as the shortest of them.
ghost use Rattle.std.specs.Prelude.{◌+◌, ◌≤◌};
ghost use Rattle.rules.specs.Causes.{Ok};
ghost use Rattle.memtable.specs.Columns.{columns};
ghost use Rattle.memtable.specs.Fetches.{entries_at};
ghost use Rattle.memtable.specs.Views as table;
ghost use Rattle.columns.specs.Slices.{Least};
ghost use Rattle.columns.specs.Fetches.{EntriesFetched};

use crate::copies::copy_rows;
use memtable::{Head, RowRange};
use pipe_log::Cause;

// The least of eight lengths.
fn least_of(a: usize, b: usize, c: usize, d: usize, e: usize, f: usize, g: usize, h: usize) -> usize
    ensures { Least a b c d e f g h result }
{
    let front = a.min(b).min(c.min(d));
    let back = e.min(f).min(g.min(h));
    front.min(back)
}

// Answers a range of a head's entries in the slices, each cut to the length of the shortest, if they have room.
#[inline(always)]
pub fn answer_rows(
    head: Head,
    rows: &[u64],
    range: RowRange,
    index: &mut [u64],
    queue: &mut [u64],
    seq: &mut [u64],
    offset: &mut [u64],
    len: &mut [u64],
    compression: &mut [u64],
    entry_offset: &mut [u64],
    entry_len: &mut [u64],
) -> Result<usize, Cause>
    requires wf { table.Wf head rows.now }
    requires range_bound { range.from + range.count ≤ head.len }
    ensures { EntriesFetched (Ok (entries_at range.from range.count head rows.now)) (columns index.old queue.old seq.old offset.old len.old compression.old entry_offset.old entry_len.old) result (columns index.new queue.new seq.new offset.new len.new compression.new entry_offset.new entry_len.new) }
{
    let room = least_of(
        index.len(),
        queue.len(),
        seq.len(),
        offset.len(),
        len.len(),
        compression.len(),
        entry_offset.len(),
        entry_len.len(),
    );
    copy_rows(
        head,
        rows,
        range.from,
        range.count,
        &mut index[..room],
        &mut queue[..room],
        &mut seq[..room],
        &mut offset[..room],
        &mut len[..room],
        &mut compression[..room],
        &mut entry_offset[..room],
        &mut entry_len[..room],
    )
}
