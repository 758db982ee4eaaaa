// The causes 2 to 6 of one item's content, each equal to the rules' test of the same name.
#![tactic(auto, unfolding(crate::specs::Judged::call_of, crate::specs::Judged::long_value, crate::specs::Judged::long_key, crate::specs::Judged::long_places, crate::specs::Judged::del_or_compact, crate::specs::Judged::entries_incomplete, crate::specs::Judged::entry_meets, crate::specs::Judged::least_content, crate::specs::Lent::command_of, crate::specs::Lent::value_of, crate::specs::Lent::change_of, crate::specs::Lent::key_change, crate::specs::Lent::key_content, crate::specs::Lent::content_of, rules::specs::Items::writes, rules::specs::Items::is_live_rewrite, rules::specs::Items::is_tombstone, rules::specs::Items::is_clean, rules::specs::Checks::is_rewrite_replay, rules::specs::Checks::lacks_value, rules::specs::Checks::lacks_file, rules::specs::Checks::lacks_mark_value, rules::specs::Checks::is_incomplete, rules::specs::Checks::is_out_of_range, rules::specs::Checks::other_file, rules::specs::Checks::is_other_queue, rules::specs::Checks::is_not_rewritable, maps::specs::Lists::or_else))]

ghost use Rattle.std.specs.Prelude.{◌≡◌, List, ℕ, length};
ghost use Rattle.rules.specs.Items.{command, writes, is_live_rewrite};
ghost use Rattle.rules.specs.Checks.{lacks_value, lacks_file, lacks_mark_value, is_incomplete, is_out_of_range, is_other_queue, is_not_rewritable, is_rewrite_replay};
ghost use Rattle.log_batch.specs.Lent.{command_of, key_change, key_content, content_of, RowsWithin};
ghost use Rattle.log_batch.specs.Judged.{call_of, long_key, long_places, del_or_compact, least_content};

use crate::entries::{self, EntryTest, MAX_INDEX, any_entry};
use crate::item::{Command, KeyValue, LogItemContent, OpType, entries_of};
use crate::plain::is_plain_content;
use pipe_log::{Cause, LogQueue};

// The bounds of cause 2.
pub const MAX_ITEMS: usize = 32;

pub const MAX_LIST_ENTRIES: usize = 32;

pub const MAX_BYTES: usize = 32;

// The four calls that take a batch; a live rewrite has its gate and the batch's sequence number.
#[derive(Clone, Copy)]
pub enum Call {
    ReplayAppend,
    ReplayRewrite,
    LiveAppend,
    LiveRewrite { gate: Option<u64>, seq: u64 },
}

impl Call {
    // The queue that a call writes.
    pub fn writes(self) -> LogQueue
        ensures { result ≡ writes (call_of self) }
    {
        match self {
            Call::ReplayAppend | Call::LiveAppend => LogQueue::Append,
            Call::ReplayRewrite | Call::LiveRewrite { .. } => LogQueue::Rewrite,
        }
    }

    pub fn is_live_rewrite(self) -> bool
        ensures { result ≡ is_live_rewrite (call_of self) }
    {
        matches!(self, Call::LiveRewrite { .. })
    }

    pub fn is_rewrite_replay(self) -> bool
        ensures { result ≡ is_rewrite_replay (call_of self) }
    {
        matches!(self, Call::ReplayRewrite)
    }
}

fn is_long_key(kv: KeyValue) -> bool
    ensures { result ≡ long_key kv }
{
    if kv.key_len > MAX_BYTES {
        return true;
    }
    match (kv.op_type, kv.value) {
        (OpType::Put, Some(value)) => value.len > MAX_BYTES,
        _ => false,
    }
}

// 2: a list over 32 entries, a key or value over 32 bytes.
pub fn is_long(content: LogItemContent) -> bool
    ensures { result ≡ long_places content }
{
    match content {
        LogItemContent::EntryIndexes(list) => list.count > MAX_LIST_ENTRIES,
        LogItemContent::Command(_) => false,
        LogItemContent::Kv(kv) => is_long_key(kv),
    }
}

// A Put without a value.
fn lacks_value(kv: KeyValue) -> bool
    ensures { (bytes : List ℕ) → result ≡ lacks_value (key_change kv bytes) }
{
    match kv.op_type {
        OpType::Put => kv.value.is_none(),
        OpType::Del => false,
    }
}

// A Put without a file.
fn lacks_file(kv: KeyValue) -> bool
    ensures { (bytes : List ℕ) → result ≡ lacks_file (key_change kv bytes) }
{
    match kv.op_type {
        OpType::Put => kv.file_id.is_none(),
        OpType::Del => false,
    }
}

// A reserved Put without value, which is 3 in Rewrite replay.
pub fn lacks_mark_value(content: LogItemContent) -> bool
    ensures { (entries bytes : List ℕ) → result ≡ lacks_mark_value (content_of content entries bytes) }
{
    match content {
        LogItemContent::EntryIndexes(_) => false,
        LogItemContent::Command(_) => false,
        LogItemContent::Kv(kv) => lacks_value(kv),
    }
}

fn is_incomplete_key(call: Call, kv: KeyValue) -> bool
    ensures { (bytes : List ℕ) → result ≡ is_incomplete (call_of call) (key_content kv bytes) }
{
    !call.is_live_rewrite() && (lacks_value(kv) || lacks_file(kv))
}

// 3: a Put without value or file (live rewrite reads neither), an entry without a file, indexes not consecutive.
pub fn is_incomplete(call: Call, content: LogItemContent, entries: &[u64]) -> bool
    requires { RowsWithin content (length entries.now) }
    ensures { (bytes : List ℕ) → result ≡ is_incomplete (call_of call) (content_of content entries.now bytes) }
{
    match content {
        LogItemContent::EntryIndexes(list) => {
            entries::is_incomplete(entries_of(entries, list.at, list.count), list.count)
        }
        LogItemContent::Command(_) => false,
        LogItemContent::Kv(kv) => is_incomplete_key(call, kv),
    }
}

fn is_far_compact(order: Command) -> bool
    ensures { result ≡ is_out_of_range (command (command_of order)) }
{
    match order {
        Command::Clean => false,
        Command::Compact { index } => index > MAX_INDEX,
    }
}

// 4: an index or compaction target above 2^63−1, an entry length above 2^25.
pub fn is_out_of_range(content: LogItemContent, entries: &[u64]) -> bool
    requires { RowsWithin content (length entries.now) }
    ensures { (bytes : List ℕ) → result ≡ is_out_of_range (content_of content entries.now bytes) }
{
    match content {
        LogItemContent::EntryIndexes(list) => {
            let rows = entries_of(entries, list.at, list.count);
            any_entry(EntryTest::OutOfRange, rows, list.count)
        }
        LogItemContent::Command(command) => is_far_compact(command),
        LogItemContent::Kv(_) => false,
    }
}

fn is_other_key(call: Call, kv: KeyValue) -> bool
    ensures { (bytes : List ℕ) → result ≡ is_other_queue (call_of call) (key_content kv bytes) }
{
    if call.is_live_rewrite() {
        return false;
    }
    match (kv.op_type, kv.file_id) {
        (OpType::Put, Some(file)) => file.queue != call.writes(),
        _ => false,
    }
}

// 5: an entry or Put file that the call reads, not of the queue that it writes.
pub fn is_other_queue(call: Call, content: LogItemContent, entries: &[u64]) -> bool
    requires { RowsWithin content (length entries.now) }
    ensures { (bytes : List ℕ) → result ≡ is_other_queue (call_of call) (content_of content entries.now bytes) }
{
    match content {
        LogItemContent::EntryIndexes(list) => {
            let rows = entries_of(entries, list.at, list.count);
            any_entry(EntryTest::OtherQueue(call.writes()), rows, list.count)
        }
        LogItemContent::Command(_) => false,
        LogItemContent::Kv(kv) => is_other_key(call, kv),
    }
}

// Whether an item is a Del or a Compact.
fn is_del_or_compact(content: LogItemContent) -> bool
    ensures { (entries bytes : List ℕ) → result ≡ del_or_compact (content_of content entries bytes) }
{
    match content {
        LogItemContent::EntryIndexes(_) => false,
        LogItemContent::Command(command) => matches!(command, Command::Compact { .. }),
        LogItemContent::Kv(kv) => matches!(kv.op_type, OpType::Del),
    }
}

// 6: Del or Compact in a live rewrite.
pub fn is_not_rewritable(call: Call, content: LogItemContent) -> bool
    ensures { (entries bytes : List ℕ) → result ≡ is_not_rewritable (call_of call) (content_of content entries bytes) }
{
    call.is_live_rewrite() && is_del_or_compact(content)
}

// The first of the causes Incomplete to NotRewritable that an item of no reserved key meets, test by test.
fn least_of_tests(call: Call, content: LogItemContent, entries: &[u64]) -> Option<Cause>
    requires { RowsWithin content (length entries.now) }
    ensures { (bytes : List ℕ) → result ≡ least_content (call_of call) (content_of content entries.now bytes) }
{
    if is_incomplete(call, content, entries) {
        return Some(Cause::Incomplete);
    }
    if is_out_of_range(content, entries) {
        return Some(Cause::OutOfRange);
    }
    if is_other_queue(call, content, entries) {
        return Some(Cause::WrongQueue);
    }
    if is_not_rewritable(call, content) {
        return Some(Cause::NotRewritable);
    }
    None
}

// The same; a list is first looked at in one pass, which tells most lists that meet none.
pub fn least_of_content(call: Call, content: LogItemContent, entries: &[u64]) -> Option<Cause>
    requires { RowsWithin content (length entries.now) }
    ensures { (bytes : List ℕ) → result ≡ least_content (call_of call) (content_of content entries.now bytes) }
{
    if is_plain_content(call, content, entries) {
        return None;
    }
    least_of_tests(call, content, entries)
}
