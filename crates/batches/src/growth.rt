// What an item adds to the lists of an area: a replay keeps tombstones, and Cleans of the Append side are cleaned numbers.
ghost use Rattle.std.specs.Prelude.{List, ◌≡◌, ℕ, length, get_or, drop};
ghost use mathlib.Core.Bool.{◌&&◌};
ghost use Rattle.rules.specs.Items.{Append, same_queue, is_tombstone, is_clean, writes};
ghost use Rattle.rules.specs.Context.{keeps};
ghost use Rattle.log_batch.specs.Lent.{content_of, item_of};
ghost use Rattle.log_batch.specs.Judged.{call_of};
ghost use Rattle.stores.specs.Written.{Lent};
ghost use Rattle.lists.specs.Rest.{Wf};
ghost use Rattle.batches.specs.Steps.{adds_tombstone, adds_cleaned, room_if};
ghost use Rattle.batches.specs.Growth.{RoomFor, ListsGrown, AreaGrown};

use log_batch::Call;
use log_batch::item::{Command, LogItem, LogItemContent, OpType};

// Whether a call keeps tombstones.
fn keeps(call: Call) -> bool
    ensures { result ≡ keeps (call_of call) }
{
    match call {
        Call::ReplayAppend => true,
        Call::ReplayRewrite => true,
        Call::LiveAppend => false,
        Call::LiveRewrite { gate: _, seq: _ } => false,
    }
}

// Whether a call is of the Append side.
fn is_append_side(call: Call) -> bool
    ensures { result ≡ same_queue (writes (call_of call)) Append }
{
    match call {
        Call::ReplayAppend => true,
        Call::ReplayRewrite => false,
        Call::LiveAppend => true,
        Call::LiveRewrite { gate: _, seq: _ } => false,
    }
}

// Del, a reserved one too, Clean and Compact are tombstones.
fn is_tombstone(content: LogItemContent) -> bool
    ensures { (es bs : List ℕ) → result ≡ is_tombstone (content_of content es bs) }
{
    match content {
        LogItemContent::EntryIndexes(list) => false,
        LogItemContent::Command(command) => true,
        LogItemContent::Kv(kv) => {
            let op_type = kv.op_type;
            match op_type {
                OpType::Put => false,
                OpType::Del => true,
            }
        }
    }
}

fn is_clean(content: LogItemContent) -> bool
    ensures { (es bs : List ℕ) → result ≡ is_clean (content_of content es bs) }
{
    match content {
        LogItemContent::EntryIndexes(list) => false,
        LogItemContent::Command(command) => match command {
            Command::Clean => true,
            Command::Compact { index: _ } => false,
        },
        LogItemContent::Kv(kv) => false,
    }
}

// Whether an item adds a tombstone.
pub fn adds_tombstone(call: Call, item: LogItem) -> bool
    ensures { (es bs : List ℕ) → result ≡ adds_tombstone (call_of call) (item_of item es bs) }
{
    if !keeps(call) {
        return false;
    }
    let content = item.content;
    is_tombstone(content)
}

// Whether an item adds a cleaned number.
pub fn adds_cleaned(call: Call, item: LogItem) -> bool
    ensures { (es bs : List ℕ) → result ≡ adds_cleaned (call_of call) (item_of item es bs) }
{
    if !is_append_side(call) {
        return false;
    }
    let content = item.content;
    is_clean(content)
}

// Whether a list of n elements has room for what is added.
fn room_if(added: bool, n: usize, most: usize) -> bool
    ensures { result ≡ room_if added n most }
{
    if !added {
        return true;
    }
    n < most
}

// Whether the lists have room for what is added.
pub fn have_room(ys: &[u64], tombstone: bool, cleaned: bool) -> bool
    requires { length ys.now ≡ 7855 }
    ensures { result ≡ room_if tombstone (get_or ys.now 1 0) 64 && room_if cleaned (get_or ys.now 2 0) 64 }
{
    let counts = lists::counts_in(ys);
    if !room_if(tombstone, counts.tombstones, lists::MAX_TOMBSTONES) {
        return false;
    }
    room_if(cleaned, counts.cleaned, lists::MAX_CLEANED)
}

// Adds a tombstone, if it is to be added.
fn add_tombstone_if(
    added: bool,
    ys: &mut [u64],
    cs: &mut [u8],
    item: LogItem,
    entries: &[u64],
    bytes: &[u8],
)
    requires wf { Wf ys.old cs.old }
    requires room_for { RoomFor added mathlib.Core.Bool.false item ys.old }
    requires lent { Lent item (length entries.now) (length bytes.now) }
    ensures { ListsGrown added mathlib.Core.Bool.false (item_of item entries.now bytes.now) ys.old cs.old ys.new cs.new }
{
    if !added {
        return;
    }
    lists::add_tombstone(ys, cs, item, entries, bytes);
}

// Adds what an item adds to the lists, which have room for it.
fn grow_lists(
    ys: &mut [u64],
    cs: &mut [u8],
    tombstone: bool,
    cleaned: bool,
    item: LogItem,
    entries: &[u64],
    bytes: &[u8],
)
    requires wf { Wf ys.old cs.old }
    requires room_for { RoomFor tombstone cleaned item ys.old }
    requires lent { Lent item (length entries.now) (length bytes.now) }
    ensures { ListsGrown tombstone cleaned (item_of item entries.now bytes.now) ys.old cs.old ys.new cs.new }
{
    add_tombstone_if(tombstone, ys, cs, item, entries, bytes);
    if !cleaned {
        return;
    }
    lists::add_cleaned(ys, item.raft_group_id);
}

// The same on an area.
pub fn grow(
    xs: &mut [u64],
    bs: &mut [u8],
    tombstone: bool,
    cleaned: bool,
    item: LogItem,
    entries: &[u64],
    bytes: &[u8],
)
    requires wf { Wf (drop 9376 xs.old) (drop 16384 bs.old) }
    requires room_for { RoomFor tombstone cleaned item (drop 9376 xs.old) }
    requires lent { Lent item (length entries.now) (length bytes.now) }
    ensures { AreaGrown tombstone cleaned (item_of item entries.now bytes.now) xs.old bs.old xs.new bs.new }
{
    let a = groups::NUMBERS;
    let c = groups::BYTES;
    grow_lists(
        &mut xs[a..],
        &mut bs[c..],
        tombstone,
        cleaned,
        item,
        entries,
        bytes,
    );
}
