// The checks TooLong to BadMark over a whole batch: the first cause in their order that any item meets, at the first item that meets it.
#![tactic(auto, unfolding(crate::specs::Judged::mark_of, crate::specs::Judged::mark_as, crate::specs::Judged::mark_for, crate::specs::Judged::incomplete_mark, crate::specs::Judged::least_mark, crate::specs::Judged::lesser_of, crate::specs::Lent::item_of, rules::specs::Items::is_mark, rules::specs::Checks::breaks_mark, rules::specs::Checks::meets7, maps::specs::Lists::or_else))]

ghost use Rattle.std.specs.Prelude.{◌≡◌, List, ℕ, ◌*◌, ◌<◌, length, drop};
ghost use Rattle.rules.specs.Checks.{breaks_mark, checks};
ghost use Rattle.log_batch.specs.Batch.{count_in, item_in, items_in};
ghost use Rattle.log_batch.specs.Lent.{item_of, BytesWithin, Within};
ghost use Rattle.log_batch.specs.Judged.{call_of, mark_of, mark_as, mark_for, incomplete_mark, least_mark, least_of, lesser_of, checked_as};

use crate::batch::LogBatch;
use crate::causes::{Call, MAX_ITEMS, is_long, lacks_mark_value, least_of_content};
use crate::item::LogItem;
use crate::mark::{END, Mark, first_mark, is_reserved, mark_byte};
use crate::open::{open_item, row_count};
use pipe_log::{Cause, Refusal};

// The highest status of a mark.
pub const MAX_STATUS: u8 = END;

// Whether an item breaks the rule of a marked batch: a second mark, a status above 2, another group.
fn breaks_mark(mark: Mark, i: usize, item: LogItem, bytes: &[u8]) -> bool
    requires { BytesWithin item.content (length bytes.now) }
    ensures { (entries : List ℕ) → result ≡ breaks_mark (mark_of mark) i (item_of item entries bytes.now) }
{
    if item.raft_group_id != mark.raft_group_id {
        return true;
    }
    match mark_byte(item.content, bytes) {
        Some(byte) => i != mark.at || byte > MAX_STATUS,
        None => false,
    }
}

// BadMark where an item meets it.
fn least_of_mark(
    call: Call,
    mark: Option<Mark>,
    i: usize,
    item: LogItem,
    bytes: &[u8],
) -> Option<Cause>
    requires { BytesWithin item.content (length bytes.now) }
    ensures { (entries : List ℕ) → result ≡ least_mark (call_of call) (mark_as mark) i (item_of item entries bytes.now) }
{
    if !call.is_rewrite_replay() {
        return None;
    }
    let first = mark?;
    if breaks_mark(first, i, item, bytes) {
        return Some(Cause::BadMark);
    }
    None
}

// Whether a reserved item is incomplete.
fn is_incomplete_mark(call: Call, item: LogItem) -> bool
    ensures { (entries bytes : List ℕ) → result ≡ incomplete_mark (call_of call) (item_of item entries bytes) }
{
    call.is_rewrite_replay() && lacks_mark_value(item.content)
}

// The first of the causes TooLong to BadMark that item i meets.
fn least_of(
    call: Call,
    mark: Option<Mark>,
    i: usize,
    item: LogItem,
    entries: &[u64],
    bytes: &[u8],
) -> Option<Cause>
    requires { Within item.content (length entries.now) (length bytes.now) }
    ensures { result ≡ least_of (call_of call) (mark_as mark) i (item_of item entries.now bytes.now) }
{
    if i == MAX_ITEMS || is_long(item.content) {
        return Some(Cause::TooLong);
    }
    if is_reserved(item.content, bytes) {
        if is_incomplete_mark(call, item) {
            return Some(Cause::Incomplete);
        }
        return least_of_mark(call, mark, i, item, bytes);
    }
    match least_of_content(call, item.content, entries) {
        Some(cause) => Some(cause),
        None => least_of_mark(call, mark, i, item, bytes),
    }
}

// The same of the row at item i, opened; a refused row is incomplete.
fn least_at(call: Call, mark: Option<Mark>, i: usize, batch: &LogBatch) -> Option<Cause>
    requires { i < count_in batch.now }
    ensures { result ≡ least_of (call_of call) (mark_as mark) i (item_in i batch.now) }
{
    let Ok(item) = open_item(batch, i) else {
        if i == MAX_ITEMS {
            return Some(Cause::TooLong);
        }
        return Some(Cause::Incomplete);
    };
    least_of(call, mark, i, item, batch.entries, batch.bytes)
}

// The first mark, for the one call that looks at marks.
pub fn mark_for(call: Call, batch: &LogBatch) -> Option<Mark>
    ensures { mark_as result ≡ mark_for (call_of call) (items_in batch.now) }
{
    if !call.is_rewrite_replay() {
        return None;
    }
    first_mark(batch)
}

// The refusal with the lesser number, and of the same number the one at the earlier place: 01's choice between two refusals, and no order
// of refusals.
fn lesser(best: Option<Refusal>, cause: Option<Cause>, place: usize) -> Option<Refusal>
    ensures { result ≡ lesser_of best cause place }
{
    let Some(cause) = cause else {
        return best;
    };
    if let Some(refusal) = best
        && refusal.cause.number() <= cause.number()
    {
        return best;
    }
    Some(Refusal {
        cause,
        place: Some(place),
    })
}

// The checks TooLong to BadMark of a batch for a call. No more than 33 items are looked at, since item 32 is one too many.
pub fn check(call: Call, batch: &LogBatch) -> Result<(), Refusal>
    ensures { checked_as result ≡ checks (call_of call) (items_in batch.now) }
{
    let mark = mark_for(call, batch);
    let mut best = None;
    for i in 0..row_count(batch.items) {
        best = lesser(best, least_at(call, mark, i, batch), i);
        if let Some(refusal) = best
            && refusal.cause == Cause::TooLong
        {
            return Err(refusal);
        }
    }
    match best {
        Some(refusal) => Err(refusal),
        None => Ok(()),
    }
}
