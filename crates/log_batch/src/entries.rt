// Tests of a list of entries, given by its rows.
ghost use Rattle.std.specs.Prelude.{◌≡◌, suc, ◌*◌, ◌≤◌, eqb, length};
ghost use Rattle.maps.specs.Lists.{any};
ghost use Rattle.pipe_log.specs.Rows.{is_record, entry_of, entries_of};
ghost use Rattle.rules.specs.Checks.{consecutive};
ghost use Rattle.log_batch.specs.Judged.{entry_meets, entries_incomplete};

use pipe_log::{ENTRY_WIDTH, LogQueue, REWRITE};

// The bounds of cause 4.
pub const MAX_INDEX: u64 = 0x7fff_ffff_ffff_ffff;

pub const MAX_ENTRY_LEN: u64 = 0x200_0000;

// What a record's numbers are bounded by: the highest number of a compression type, and what entry offsets are below.
pub const MAX_COMPRESSION: u64 = 1;

pub const ENTRY_OFFSETS: u64 = 0x1_0000_0000;

// What an entry is tested for. Contracts name a test by it (`entry_meets`), so it is data: a closure would go with its meaning beside it.
#[derive(Clone, Copy)]
pub enum EntryTest {
    WithoutFile,
    OutOfRange,
    OtherQueue(LogQueue),
}

// Whether the first row is an entry record; an entry of any other row has no file.
#[tactic(auto, unfolding(pipe_log::specs::Rows::is_record))]
fn is_record(row: &[u64]) -> bool
    requires { 8 ≤ length row.now }
    ensures { result ≡ is_record row.now }
{
    row[1] <= REWRITE && row[5] <= MAX_COMPRESSION && row[6] < ENTRY_OFFSETS
}

#[tactic(auto, unfolding(crate::specs::Judged::entry_meets, pipe_log::specs::Rows::entry_of))]
fn is_out_of_range(row: &[u64]) -> bool
    requires { 8 ≤ length row.now }
    ensures { result ≡ entry_meets EntryTest.OutOfRange (entry_of row.now) }
{
    row[0] > MAX_INDEX || row[7] > MAX_ENTRY_LEN
}

fn is_of_other_queue(row: &[u64], queue: LogQueue) -> bool
    requires { 8 ≤ length row.now }
    ensures { result ≡ entry_meets (EntryTest.OtherQueue queue) (entry_of row.now) }
{
    is_record(row) && LogQueue::from(row[1]) != queue
}

// Whether the entry of the first row meets a test.
fn entry_meets(test: EntryTest, row: &[u64]) -> bool
    requires { 8 ≤ length row.now }
    ensures { result ≡ entry_meets test (entry_of row.now) }
{
    match test {
        EntryTest::WithoutFile => !is_record(row),
        EntryTest::OutOfRange => is_out_of_range(row),
        EntryTest::OtherQueue(queue) => is_of_other_queue(row, queue),
    }
}

// Whether the entry of one of the first `count` rows meets a test.
pub fn any_entry(test: EntryTest, rows: &[u64], count: usize) -> bool
    requires { count * 8 ≤ length rows.now }
    ensures { result ≡ any (entry_meets test) (entries_of count rows.now) }
{
    for i in 0..count {
        if entry_meets(test, &rows[i * ENTRY_WIDTH..]) {
            return true;
        }
    }
    false
}

// Whether an index is one above the index before it.
fn follows(before: u64, index: u64) -> bool
    ensures { result ≡ eqb index (suc before) }
{
    before.checked_add(1) == Some(index)
}

// Whether the indexes of the first `count` rows are consecutive.
pub fn is_consecutive(rows: &[u64], count: usize) -> bool
    requires { count * 8 ≤ length rows.now }
    ensures { result ≡ consecutive (entries_of count rows.now) }
{
    for i in 1..count {
        if !follows(rows[(i - 1) * ENTRY_WIDTH], rows[i * ENTRY_WIDTH]) {
            return false;
        }
    }
    true
}

// Whether a list is incomplete: an entry without a file, or indexes that are not consecutive.
#[tactic(auto, unfolding(crate::specs::Judged::entries_incomplete))]
pub fn is_incomplete(rows: &[u64], count: usize) -> bool
    requires { count * 8 ≤ length rows.now }
    ensures { result ≡ entries_incomplete (entries_of count rows.now) }
{
    any_entry(EntryTest::WithoutFile, rows, count) || !is_consecutive(rows, count)
}
