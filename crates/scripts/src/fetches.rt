// The fetches of entry records, in each form: into parallel slices, into a list of rows, and into a list of records. The records are stored
// twice: field by field as the slices have them, and then row by row.
ghost use Rattle.std.specs.Prelude.{◌≤◌, length};
ghost use Rattle.scripts.specs.Agreement.{Stored};

use crate::asks::fetch_of;
use crate::compare::{ROWS, is_told, numbers_are, record_is};
use crate::row::Row;
use crate::told::told_count;
use contexts::Area;
use pipe_log::{Cause, CompressionType, ENTRY_WIDTH, EntryIndex};
use records::Fetch;
use stretch::MAX_ENTRIES;

// The numbers of a list with a row for each entry of a group.
const ROW_NUMBERS: usize = MAX_ENTRIES * ENTRY_WIDTH;

// Whether an answer is told as stored, and with it the columns one behind another, as far as it tells.
fn columns_are(told: [u64; 3], columns: &[[u64; MAX_ENTRIES]; ENTRY_WIDTH], want: &[u64]) -> bool {
    if !is_told(told, want, 0) {
        return false;
    }
    let n = told[1] as usize;
    if MAX_ENTRIES < n {
        return false;
    }
    for (i, column) in columns.iter().enumerate() {
        if !numbers_are(&column[..n], want, ROWS + i * n) {
            return false;
        }
    }
    true
}

// Whether a fetch into slices, one for each number in the row of a record, is answered as stored.
fn in_slices(row: Row, area: &Area, want: &[u64]) -> bool {
    let [
        mut index,
        mut queue,
        mut seq,
        mut offset,
        mut len,
        mut compression,
        mut entry_offset,
        mut entry_len,
    ] = [[0; MAX_ENTRIES]; ENTRY_WIDTH];
    let answer = match fetch_of(row) {
        Fetch::EntriesTo {
            begin,
            end,
            max_size,
        } => index::fetch_entries_to(
            area,
            row.group,
            begin,
            end,
            max_size,
            &mut index,
            &mut queue,
            &mut seq,
            &mut offset,
            &mut len,
            &mut compression,
            &mut entry_offset,
            &mut entry_len,
        ),
        Fetch::EntryIndexesBefore { gate } => index::fetch_entry_indexes_before(
            area,
            row.group,
            gate,
            &mut index,
            &mut queue,
            &mut seq,
            &mut offset,
            &mut len,
            &mut compression,
            &mut entry_offset,
            &mut entry_len,
        ),
        Fetch::RewrittenEntryIndexes => index::fetch_rewritten_entry_indexes(
            area,
            row.group,
            &mut index,
            &mut queue,
            &mut seq,
            &mut offset,
            &mut len,
            &mut compression,
            &mut entry_offset,
            &mut entry_len,
        ),
    };
    let columns = [
        index,
        queue,
        seq,
        offset,
        len,
        compression,
        entry_offset,
        entry_len,
    ];
    columns_are(told_count(answer), &columns, want)
}

// The fetch into a list of rows that a row of the script names.
fn fetch_rows(row: Row, area: &Area, out: &mut [u64]) -> Result<usize, Cause> {
    let group = row.group;
    match fetch_of(row) {
        Fetch::EntriesTo {
            begin,
            end,
            max_size,
        } => index::fetch_rows_to(area, group, begin, end, max_size, out),
        Fetch::EntryIndexesBefore { gate } => index::fetch_rows_before(area, group, gate, out),
        Fetch::RewrittenEntryIndexes => index::fetch_rewritten_rows(area, group, out),
    }
}

// Whether a fetch into a list of rows is answered as stored.
fn in_rows(row: Row, area: &Area, want: &[u64]) -> bool
    ensures { Stored want.now result }
{
    let mut list = [0; ROW_NUMBERS];
    let told = told_count(fetch_rows(row, area, &mut list));
    if !is_told(told, want, 0) {
        return false;
    }
    let n = told[1] as usize;
    if MAX_ENTRIES < n {
        return false;
    }
    let all = n * ENTRY_WIDTH;
    numbers_are(&list[..all], want, ROWS + all)
}

// Whether the records of a list are the stored ones.
fn records_are(list: &[EntryIndex], want: &[u64]) -> bool
    requires { length list.now ≤ 64 }
{
    for (i, record) in list.iter().enumerate() {
        if !record_is(*record, want, ROWS + (list.len() + i) * ENTRY_WIDTH) {
            return false;
        }
    }
    true
}

// Whether a fetch into a list of records is answered as stored.
fn in_records(row: Row, area: &Area, want: &[u64]) -> bool
    ensures { Stored want.now result }
{
    let empty = EntryIndex {
        index: 0,
        entries: None,
        compression_type: CompressionType::None,
        entry_offset: 0,
        entry_len: 0,
    };
    let list = [empty; MAX_ENTRIES];
    let listed = records::fetch_listed(area, row.group, fetch_of(row), list);
    if !is_told(told_count(listed.answer), want, 0) {
        return false;
    }
    let Ok(count) = listed.answer else {
        return true;
    };
    listed
        .list
        .get(..count)
        .is_some_and(|records| records_are(records, want))
}

// Whether a fetch is answered as stored in each form.
pub fn entries(row: Row, area: &Area, want: &[u64]) -> bool
    ensures { Stored want.now result }
{
    in_slices(row, area, want) && in_rows(row, area, want) && in_records(row, area, want)
}
