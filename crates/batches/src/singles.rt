// A batch of one list of entries or one Put, the commonest batches. Its row, and one pass over the rows of entries, tell that it meets
// none of the checks, and its group is changed with nothing saved, since no item follows.
ghost use Rattle.std.specs.Prelude.{true, ◌&&◌, List, ◌≡◌, ℕ, ◌+◌, leb, length, get_or};
ghost use Rattle.maps.specs.Maps.{lookup, numbers};
ghost use Rattle.rules.specs.Items.{placed_from, writes};
ghost use Rattle.rules.specs.Table.{made};
ghost use Rattle.rules.specs.Context.{limited, run};
ghost use Rattle.log_batch.specs.Batch.{items_in};
ghost use Rattle.log_batch.specs.Judged.{call_of};
ghost use Rattle.groups.specs.Area.{groups_of};
ghost use Rattle.groups.specs.Area as groups·area;
ghost use Rattle.deeds.specs.Deeds.{DeedReady};
ghost use Rattle.contexts.specs.Contexts.{context_of, Formed, Answered};
ghost use Rattle.batches.specs.Acts.{deed_on};
ghost use Rattle.batches.specs.Runs.{Keeping};
ghost use Rattle.batches.specs.Singles.{list_item, put_item, Single, SingleList, append_call, ActedAlone, answer_of};

use deeds::{Deed, deed_of, key_in, rows_in, value_in};
use groups::Slot;
use log_batch::causes::{MAX_BYTES, MAX_LIST_ENTRIES};
use log_batch::item::{Bytes, EntryIndexes, KeyValue, LogItem, LogItemContent, OpType};
use log_batch::mark::RESERVED_LEN;
use log_batch::open::{HAS_VALUE, ITEM_WIDTH, LIST, PUT};
use log_batch::plain::is_plain_of;
use log_batch::{Call, LogBatch};
use pipe_log::{Cause, ENTRY_WIDTH, FileId, LogQueue, Refusal};

// Whether a batch is one list of entries of a queue that meets none of the checks.
pub fn is_single_list(items: &[u64], entries: &[u64], queue: LogQueue) -> bool
    ensures { (call : _) (bytes : List ℕ) → writes (call_of call) ≡ queue → result ≡ true → SingleList call items.now entries.now bytes }
{
    if items.len() != ITEM_WIDTH {
        return false;
    }
    if items[1] != LIST {
        return false;
    }
    let at = items[2] as usize;
    let count = items[3] as usize;
    if MAX_LIST_ENTRIES < count {
        return false;
    }
    let rows = entries.len() / ENTRY_WIDTH;
    if rows < at {
        return false;
    }
    if rows - at < count {
        return false;
    }
    let content = LogItemContent::EntryIndexes(EntryIndexes { at, count });
    is_plain_of(queue, content, entries)
}

// Whether so many bytes from a place on are within the lent ones, and no more than a key or a value may have.
fn has_bytes(bytes: &[u8], at: usize, len: usize) -> bool
    ensures { result ≡ leb len 32 && leb (at + len) (length bytes.now) }
{
    if MAX_BYTES < len {
        return false;
    }
    let end = bytes.len();
    if end < at {
        return false;
    }
    len <= end - at
}

// Whether a row is a Put with a value and a file of the queue that the call writes, of a key that is not as long as the reserved one.
fn is_plain_put(call: Call, row: &[u64], bytes: &[u8]) -> bool
    requires { (length row.now ≡ 9) × (get_or row.now 1 0 ≡ 3) }
    ensures { (entries : List ℕ) → result ≡ true → Single call (put_item call row.now) row.now entries bytes.now }
{
    let key_len = row[3] as usize;
    if row[4] != HAS_VALUE {
        return false;
    }
    if row[7] != u64::from(call.writes()) {
        return false;
    }
    if key_len == RESERVED_LEN {
        return false;
    }
    if !has_bytes(bytes, row[2] as usize, key_len) {
        return false;
    }
    has_bytes(bytes, row[5] as usize, row[6] as usize)
}

// Whether a batch is one such Put.
pub fn is_single_put(call: Call, items: &[u64], bytes: &[u8]) -> bool
    ensures { (entries : List ℕ) → result ≡ true → Single call (put_item call items.now) items.now entries bytes.now }
{
    if items.len() != ITEM_WIDTH {
        return false;
    }
    if items[1] != PUT {
        return false;
    }
    is_plain_put(call, items, bytes)
}

// The item of such a list.
fn list_item(row: &[u64]) -> LogItem
    requires { length row.now ≡ 9 }
    ensures { result ≡ list_item row.now }
{
    LogItem {
        raft_group_id: row[0],
        content: LogItemContent::EntryIndexes(EntryIndexes {
            at: row[2] as usize,
            count: row[3] as usize,
        }),
    }
}

// The item of such a Put.
fn put_item(call: Call, row: &[u64]) -> LogItem
    requires { length row.now ≡ 9 }
    ensures { result ≡ put_item call row.now }
{
    let value = Some(Bytes {
        at: row[5] as usize,
        len: row[6] as usize,
    });
    let queue = call.writes();
    let file_id = Some(FileId { queue, seq: row[8] });
    LogItem {
        raft_group_id: row[0],
        content: LogItemContent::Kv(KeyValue {
            op_type: OpType::Put,
            key_at: row[2] as usize,
            key_len: row[3] as usize,
            value,
            file_id,
        }),
    }
}

// Carries out a deed on a group, with nothing to go back to.
fn act_alone(
    xs: &mut [u64],
    bs: &mut [u8],
    group: u64,
    deed: Deed,
    rows: &[u64],
    key: &[u8],
    value: &[u8],
) -> Result<(), Cause>
    requires wf { groups·area.Wf xs.old bs.old }
    requires deed_ready { DeedReady deed rows.now key.now value.now (made (lookup numbers group (groups_of xs.old bs.old))) }
    ensures { ActedAlone (deed_on deed group rows.now key.now value.now) xs.old bs.old result xs.new bs.new }
{
    match deed {
        Deed::Skip => Ok(()),
        Deed::Clean => {
            let slot = groups::find(xs, group);
            groups::remove(xs, slot, group);
            Ok(())
        }
        Deed::Change(change) => {
            let slot = groups::find(xs, group);
            groups::apply(xs, bs, slot, group, change, rows, key, value)
        }
    }
}

// The answer to a batch of one item.
#[tactic(auto, unfolding(crate::specs::Singles::answer_of))]
fn told(answer: Result<(), Cause>) -> Result<(), Refusal>
    ensures { result ≡ answer_of answer }
{
    answer.map_err(|cause| Refusal {
        cause,
        place: Some(0),
    })
}

// Carries out a batch of one item. LLVM takes this into its callers, which know what kind of item they have where its deed is told.
#[inline(always)]
fn run_single(
    xs: &mut [u64],
    bs: &mut [u8],
    call: Call,
    batch: &LogBatch,
    item: LogItem,
) -> Result<(), Refusal>
    requires formed { Formed xs.old bs.old }
    requires single { Single call item batch.now.items.now batch.now.entries.now batch.now.bytes.now }
    requires keeping { Keeping (call_of call) (context_of xs.old bs.old) }
    ensures { Answered (run limited (call_of call) (placed_from 0 (items_in batch.now))) xs.old bs.old result xs.new bs.new }
{
    let content = item.content;
    let deed = deed_of(call, content, batch.entries, batch.bytes);
    let rows = rows_in(content, batch.entries);
    let key = key_in(content, batch.bytes);
    let value = value_in(content, batch.bytes);
    told(act_alone(xs, bs, item.raft_group_id, deed, rows, key, value))
}

// Carries out a batch of one such list.
pub fn run_list(xs: &mut [u64], bs: &mut [u8], call: Call, batch: &LogBatch) -> Result<(), Refusal>
    requires formed { Formed xs.old bs.old }
    requires single { Single call (list_item batch.now.items.now) batch.now.items.now batch.now.entries.now batch.now.bytes.now }
    requires keeping { Keeping (call_of call) (context_of xs.old bs.old) }
    ensures { Answered (run limited (call_of call) (placed_from 0 (items_in batch.now))) xs.old bs.old result xs.new bs.new }
{
    run_single(xs, bs, call, batch, list_item(batch.items))
}

// The call of an append, live or replayed.
pub fn append_call(live: bool) -> Call
    ensures { result ≡ append_call live }
{
    if live {
        return Call::LiveAppend;
    }
    Call::ReplayAppend
}

// Appends a batch of one such list. A group that stands at a stretch is changed there, with no deed told.
pub fn append_list(
    xs: &mut [u64],
    bs: &mut [u8],
    live: bool,
    batch: &LogBatch,
) -> Result<(), Refusal>
    requires formed { Formed xs.old bs.old }
    requires single_list { SingleList (append_call live) batch.now.items.now batch.now.entries.now batch.now.bytes.now }
    requires keeping { Keeping (call_of (append_call live)) (context_of xs.old bs.old) }
    ensures { Answered (run limited (call_of (append_call live)) (placed_from 0 (items_in batch.now))) xs.old bs.old result xs.new bs.new }
{
    let group = batch.items[0];
    let slot = groups::find(xs, group);
    let Slot::At(k) = slot else {
        return run_list(xs, bs, append_call(live), batch);
    };
    let rows = rows_in(list_item(batch.items).content, batch.entries);
    told(groups::append_at(xs, bs, k, group, rows[0], rows, live))
}

// Rewrites a batch of one such list in the same way.
pub fn rewrite_list(
    xs: &mut [u64],
    bs: &mut [u8],
    gate: Option<u64>,
    seq: u64,
    batch: &LogBatch,
) -> Result<(), Refusal>
    requires formed { Formed xs.old bs.old }
    requires single_list { SingleList (Call.LiveRewrite gate seq) batch.now.items.now batch.now.entries.now batch.now.bytes.now }
    requires keeping { Keeping (call_of (Call.LiveRewrite gate seq)) (context_of xs.old bs.old) }
    ensures { Answered (run limited (call_of (Call.LiveRewrite gate seq)) (placed_from 0 (items_in batch.now))) xs.old bs.old result xs.new bs.new }
{
    let group = batch.items[0];
    let slot = groups::find(xs, group);
    let Slot::At(k) = slot else {
        return run_list(xs, bs, Call::LiveRewrite { gate, seq }, batch);
    };
    let rows = rows_in(list_item(batch.items).content, batch.entries);
    told(groups::rewrite_at(xs, bs, k, group, rows[0], rows, gate))
}

// Carries out a batch of one such Put.
pub fn run_put(xs: &mut [u64], bs: &mut [u8], call: Call, batch: &LogBatch) -> Result<(), Refusal>
    requires formed { Formed xs.old bs.old }
    requires single { Single call (put_item call batch.now.items.now) batch.now.items.now batch.now.entries.now batch.now.bytes.now }
    requires keeping { Keeping (call_of call) (context_of xs.old bs.old) }
    ensures { Answered (run limited (call_of call) (placed_from 0 (items_in batch.now))) xs.old bs.old result xs.new bs.new }
{
    run_single(xs, bs, call, batch, put_item(call, batch.items))
}
