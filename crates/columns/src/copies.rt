// Rows copied into parallel slices, one for each field.
ghost use Rattle.std.specs.Prelude.{◌≡◌, ◌+◌, ◌*◌, ◌≤◌, ◌<◌, ◌^◌, length, drop};
ghost use Rattle.cells.specs.Part.{put};
ghost use Rattle.rules.specs.Causes.{Ok};
ghost use Rattle.memtable.specs.Views.{Wf};
ghost use Rattle.memtable.specs.Fetches.{entries_at};
ghost use Rattle.memtable.specs.Columns.{columns, SameLength, Answered, column, up_from};

use memtable::Head;
use pipe_log::{Cause, ENTRY_WIDTH};

// How many rows are copied at once.
const AT_ONCE: usize = 4;

// Copies cell `cell` of four rows from row `from` on to the places from `at` on. All four are read before one is written, since a read
// waits for a write just before it whose place in its page is the same.
#[inline(always)]
fn copy_four(part: &[u64], from: usize, cell: usize, out: &mut [u64], at: usize)
    requires { ((from + 4) * 8 ≤ length part.now) × (cell < 8) × (at + 4 ≤ length out.old) }
    ensures { out.new ≡ put out.old at (column cell 4 (drop (from * 8) part.now)) }
{
    let first = from * ENTRY_WIDTH + cell;
    let a = part[first];
    let b = part[first + ENTRY_WIDTH];
    let c = part[first + 2 * ENTRY_WIDTH];
    let d = part[first + 3 * ENTRY_WIDTH];
    out[at] = a;
    out[at + 1] = b;
    out[at + 2] = c;
    out[at + 3] = d;
}

// Answers `count` entries of a head from place `from` on in the lent slices, which have one length, if they have room. LLVM takes this
// into its caller, and that into each fetch: a call would be handed eight slices by their places in memory.
#[inline(always)]
pub fn copy_rows(
    head: Head,
    part: &[u64],
    from: usize,
    count: usize,
    index: &mut [u64],
    queue: &mut [u64],
    seq: &mut [u64],
    offset: &mut [u64],
    len: &mut [u64],
    compression: &mut [u64],
    entry_offset: &mut [u64],
    entry_len: &mut [u64],
) -> Result<usize, Cause>
    requires wf { Wf head part.now }
    requires count_bound { from + count ≤ head.len }
    requires same_length { SameLength (columns index.old queue.old seq.old offset.old len.old compression.old entry_offset.old entry_len.old) }
    ensures { Answered (Ok (entries_at from count head part.now)) (columns index.old queue.old seq.old offset.old len.old compression.old entry_offset.old entry_len.old) result (columns index.new queue.new seq.new offset.new len.new compression.new entry_offset.new entry_len.new) }
{
    if index.len() < count {
        return Err(Cause::ListTooShort);
    }
    let first = head.first_index + from as u64;
    for i in 0..count {
        index[i] = first + i as u64;
    }
    for k in 0..count / AT_ONCE {
        let i = k * AT_ONCE;
        copy_four(part, from + i, 1, queue, i);
        copy_four(part, from + i, 2, seq, i);
        copy_four(part, from + i, 3, offset, i);
        copy_four(part, from + i, 4, len, i);
        copy_four(part, from + i, 5, compression, i);
        copy_four(part, from + i, 6, entry_offset, i);
        copy_four(part, from + i, 7, entry_len, i);
    }
    for i in count - count % AT_ONCE..count {
        let row = (from + i) * ENTRY_WIDTH;
        queue[i] = part[row + 1];
        seq[i] = part[row + 2];
        offset[i] = part[row + 3];
        len[i] = part[row + 4];
        compression[i] = part[row + 5];
        entry_offset[i] = part[row + 6];
        entry_len[i] = part[row + 7];
    }
    Ok(count)
}
