// The query that a row names, made on the context of an area, and what it answers compared with the stored numbers.

use crate::asks;
use crate::compare::{LISTED, ROWS, bytes_are, is_listed, is_told, numbers_are, record_is};
use crate::fetches::entries;
use crate::keys::keys;
use crate::row::Row;
use crate::told::{told_before, told_count, told_entry, told_flag, told_number};
use contexts::Area;
use pipe_log::LogQueue;
use stretch::STRETCH;

// The record of an entry: whether there is one, and its row.
fn entry(row: Row, area: &Area, want: &[u64]) -> bool {
    let found = index::get_entry(area, row.group, row.a);
    if !is_told(told_entry(found), want, 0) {
        return false;
    }
    let Ok(Some(record)) = found else {
        return true;
    };
    record_is(record, want, ROWS)
}

// The value of a key: the refusal, or 0 for an absent key and 1 for one that is there; the number of bytes, and the bytes.
fn value(row: Row, area: &Area, key: &[u8], want: &[u64]) -> bool {
    let (told, value): (u64, &[u8]) = match index::get(area, row.group, key) {
        Ok(Some(value)) => (1, value),
        Ok(None) => (0, &[]),
        Err(cause) => (cause.number(), &[]),
    };
    is_told([told, value.len() as u64, 0], want, 0) && bytes_are(value, want, ROWS)
}

// 30 get_entry, 31 has_at_least_some_entries_before, otherwise get.
fn one(row: Row, area: &Area, bytes: &[u8], want: &[u64]) -> bool {
    match row.what {
        30 => entry(row, area, want),
        31 => {
            let count = row.b as usize;
            let before = index::has_at_least_some_entries_before(area, row.group, row.a, count);
            is_told(told_before(before), want, 0)
        }
        _ => value(row, area, bytes, want),
    }
}

// `group_numbers`, with room for so many numbers.
fn groups(row: Row, area: &Area, want: &[u64]) -> bool {
    let mut list = [0; LISTED];
    let Some(lent) = list.get_mut(..row.room as usize) else {
        return false;
    };
    let answer = index::group_numbers(area, lent);
    is_listed(told_count(answer), list, want)
}

// 60 group_numbers, 61 is_empty, otherwise the live count of a queue.
fn all(row: Row, area: &Area, want: &[u64]) -> bool {
    match row.what {
        60 => groups(row, area, want),
        61 => is_told(told_flag(index::is_empty(area)), want, 0),
        _ => {
            let live = index::live_entries(area, LogQueue::from(row.a));
            is_told(told_count(Ok(live)), want, 0)
        }
    }
}

// Whether the stored numbers stand as bytes in an area from a place on.
fn bytes_from(bs: &[u8], from: usize, want: &[u64]) -> bool {
    let Some(rest) = bs.get(from..) else {
        return false;
    };
    want.len() <= rest.len() && bytes_are(&rest[..want.len()], want, 0)
}

// Whether the stored numbers stand in the stretch of a group.
fn stretch_is(row: Row, area: &Area, want: &[u64]) -> bool {
    let Ok(k) = queries::place_of(area.xs, row.group) else {
        return false;
    };
    let at = row.a as usize;
    at <= STRETCH && numbers_are(want, area.xs, k * STRETCH + at)
}

// 70 the numbers of an area, 71 its bytes, otherwise the numbers of a group's stretch.
fn area_is(row: Row, area: &Area, want: &[u64]) -> bool {
    if want.is_empty() {
        return false;
    }
    match row.what {
        70 => numbers_are(want, area.xs, row.a as usize),
        71 => bytes_from(area.bs, row.a as usize, want),
        _ => stretch_is(row, area, want),
    }
}

// Makes the query that a row names, by the tens of its number, and says whether it is answered as stored.
pub fn ask(row: Row, area: &Area, bytes: &[u8], want: &[u64]) -> bool {
    match row.what / 10 {
        1 => is_told(told_number(asks::number(row, area)), want, 0),
        2 => is_told(told_count(asks::count(row, area)), want, 0),
        3 => one(row, area, bytes, want),
        4 => keys(row, area, bytes, want),
        5 => entries(row, area, want),
        6 => all(row, area, want),
        7 => area_is(row, area, want),
        _ => false,
    }
}
