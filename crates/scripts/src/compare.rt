// What a call answered, compared with the stored numbers.
ghost use Rattle.std.specs.Prelude.{◌≡◌, length};
ghost use Rattle.scripts.specs.Agreement.{SameNumbers, Stored, row_of};

use pipe_log::{ENTRY_WIDTH, EntryIndex};

// Where what follows the three numbers of an answer is stored.
pub const ROWS: usize = 3;

// The numbers of a lent list.
pub const LISTED: usize = 64;

// Whether some numbers are the stored ones from place `at` on.
pub fn numbers_are(got: &[u64], want: &[u64], at: usize) -> bool
    ensures { SameNumbers got.now (length got.now) want.now at result }
{
    let Some(stored) = want.get(at..) else {
        return false;
    };
    stored.starts_with(got)
}

// The same of bytes, each as a number. One function of both would have to say in its contract what a conversion gives, and numbers need
// none.
pub fn bytes_are(got: &[u8], want: &[u64], at: usize) -> bool
    ensures { SameNumbers got.now (length got.now) want.now at result }
{
    let Some(stored) = want.get(at..) else {
        return false;
    };
    got.len() <= stored.len()
        && got
            .iter()
            .zip(stored)
            .all(|(byte, number)| u64::from(*byte) == *number)
}

// Whether the three numbers of an answer are stored from place `at` on.
pub fn is_told(told: [u64; 3], want: &[u64], at: usize) -> bool
    ensures { SameNumbers told 3 want.now at result }
{
    numbers_are(&told, want, at)
}

// Whether an answer is told as stored, and with it as many numbers of a list as it tells.
pub fn is_listed(told: [u64; 3], list: [u64; LISTED], want: &[u64]) -> bool
    ensures { Stored want.now result }
{
    is_told(told, want, 0)
        && list
            .get(..told[1] as usize)
            .is_some_and(|listed| numbers_are(listed, want, ROWS))
}

// The row of a record; one without a block has the queue 2.
fn row_of(entry: EntryIndex) -> [u64; ENTRY_WIDTH]
    ensures { result ≡ row_of entry }
{
    let compression = u64::from(entry.compression_type);
    let entry_offset = u64::from(entry.entry_offset);
    let entry_len = u64::from(entry.entry_len);
    match entry.entries {
        None => [
            entry.index,
            2,
            0,
            0,
            0,
            compression,
            entry_offset,
            entry_len,
        ],
        Some(block) => [
            entry.index,
            u64::from(block.id.queue),
            block.id.seq,
            block.offset,
            block.len as u64,
            compression,
            entry_offset,
            entry_len,
        ],
    }
}

// Whether the row of a record is stored from place `at` on.
pub fn record_is(entry: EntryIndex, want: &[u64], at: usize) -> bool
    ensures { SameNumbers (row_of entry) 8 want.now at result }
{
    numbers_are(&row_of(entry), want, at)
}
