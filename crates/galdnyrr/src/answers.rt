// The answers to queries, told as numbers.
ghost use Rattle.rules.specs.Causes.{by_cause};
ghost use Rattle.std.specs.Prelude.{◌≡◌, ◌≤◌, length};
ghost use Rattle.cells.specs.Part.{put};
ghost use Rattle.records.specs.Rows.{row_of};
ghost use Rattle.galdnyrr.specs.Asked.{flagged, FoundTold, ValueTold, EntryTold};

use cells::copy_in;
use pipe_log::{Cause, ENTRY_WIDTH, EntryIndex};

// What is returned for an answer that is absent; no cause has this number.
pub const ABSENT: u64 = 0xffff_ffff_ffff_ffff;

// Tells a number of a group, which may be absent.
pub fn tell_found(found: Result<Option<u64>, Cause>, value: &mut u64) -> u64
    ensures { FoundTold (by_cause found) value.old result value.new }
{
    match found {
        Ok(held) => match held {
            None => ABSENT,
            Some(number) => {
                *value = number;
                0
            }
        },
        Err(cause) => cause.number(),
    }
}

// Tells a count: of a group, of the rows of a lent list that were filled, or of the cleaned numbers that were handed out.
pub fn tell_count(counted: Result<usize, Cause>, value: &mut u64) -> u64
    ensures { ValueTold (by_cause counted) value.old result value.new }
{
    match counted {
        Ok(count) => {
            *value = count as u64;
            0
        }
        Err(cause) => cause.number(),
    }
}

// Tells whether a group has some entries before a gate: 1 or 0.
pub fn tell_some_before(answer: Result<bool, Cause>, value: &mut u64) -> u64
    ensures { ValueTold (flagged (by_cause answer)) value.old result value.new }
{
    match answer {
        Ok(told) => {
            *value = u64::from(told);
            0
        }
        Err(cause) => cause.number(),
    }
}

// The row of a record.
fn row_of(entry: EntryIndex) -> [u64; ENTRY_WIDTH]
    ensures { result ≡ row_of entry }
{
    let compression = u64::from(entry.compression_type);
    let entry_offset = u64::from(entry.entry_offset);
    let entry_len = u64::from(entry.entry_len);
    match entry.entries {
        None => [
            entry.index,
            0,
            0,
            0,
            0,
            compression,
            entry_offset,
            entry_len,
        ],
        Some(block) => [
            entry.index,
            u64::from(block.id.queue),
            block.id.seq,
            block.offset,
            block.len as u64,
            compression,
            entry_offset,
            entry_len,
        ],
    }
}

fn lay(entry: EntryIndex, row: &mut [u64])
    requires { 8 ≤ length row.old }
    ensures { row.new ≡ put row.old 0 (row_of entry) }
{
    let cells = row_of(entry);
    copy_in(row, 0, &cells);
}

// Tells a record of a group, which may be absent, in a lent row.
pub fn tell_entry(found: Result<Option<EntryIndex>, Cause>, row: &mut [u64]) -> u64
    ensures { EntryTold (by_cause found) row.old result row.new }
{
    match found {
        Ok(held) => match held {
            None => ABSENT,
            Some(entry) => {
                if row.len() < ENTRY_WIDTH {
                    return Cause::ListTooShort.number();
                }
                lay(entry, row);
                0
            }
        },
        Err(cause) => cause.number(),
    }
}
