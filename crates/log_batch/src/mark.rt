// Reserved keys (src/lib.rs's `is_internal_key`) and the marks of atomic groups.
#![tactic(auto, unfolding(crate::specs::Judged::mark_of, crate::specs::Judged::mark_as, crate::specs::Judged::mark_here, crate::specs::Lent::value_of, crate::specs::Lent::change_of, crate::specs::Lent::key_change, crate::specs::Lent::key_content, crate::specs::Lent::content_of, rules::specs::Items::is_reserved, rules::specs::Items::one_byte, rules::specs::Items::mark_byte, maps::specs::Lists::map_option))]

ghost use Rattle.std.specs.Prelude.{◌≡◌, List, ℕ, ◌+◌, ◌*◌, ◌≤◌, ◌<◌, length, drop};
ghost use Rattle.maps.specs.Maps.{equal_bytes};
ghost use Rattle.rules.specs.Limits.{reserved_key};
ghost use Rattle.rules.specs.Items.{is_reserved, one_byte, mark_byte, status_of};
ghost use Rattle.rules.specs.Checks.{first_mark};
ghost use Rattle.log_batch.specs.Batch.{count_in, item_in, items_in};
ghost use Rattle.log_batch.specs.Lent.{key_content, content_of, BytesWithin, value_of, ValueWithin};
ghost use Rattle.log_batch.specs.Judged.{status_as, status_number, mark_as, mark_here};

use crate::batch::LogBatch;
use crate::item::{Bytes, KeyValue, LogItemContent, OpType, bytes_of};
use crate::open::{open_item, row_count};

// The length of the reserved key.
pub const RESERVED_LEN: usize = 3;

// The bytes of the statuses.
pub const BEGIN: u8 = 0;

pub const MIDDLE: u8 = 1;

pub const END: u8 = 2;

// The numbers of the first two, as the head of a part has them.
const BEGIN_NUMBER: u64 = BEGIN as u64;

const MIDDLE_NUMBER: u64 = MIDDLE as u64;

// The status of a mark.
#[derive(Clone, Copy)]
pub enum AtomicGroupStatus {
    Begin,
    Middle,
    End,
}

// A mark: its place in the batch, its group and its status byte.
#[derive(Clone, Copy)]
pub struct Mark {
    pub at: usize,
    pub raft_group_id: u64,
    pub byte: u8,
}

impl From<AtomicGroupStatus> for u64 {
    ghost from_gives = { λ status n. n ≡ status_number (status_as status) };

    #[tactic(auto, unfolding(crate::specs::Judged::status_as, crate::specs::Judged::status_number))]
    fn from(status: AtomicGroupStatus) -> u64 {
        let byte = match status {
            AtomicGroupStatus::Begin => BEGIN,
            AtomicGroupStatus::Middle => MIDDLE,
            AtomicGroupStatus::End => END,
        };
        u64::from(byte)
    }
}

// The status that a number stands for; a number above 2 is no mark's, and stands for the last one too.
impl From<u64> for AtomicGroupStatus {
    ghost from_gives = { λ number s. status_as s ≡ status_of number };

    #[tactic(auto, using(crate::proofs::ItemLaws::status_end), unfolding(crate::specs::Judged::status_as, rules::specs::Items::status_of))]
    fn from(number: u64) -> AtomicGroupStatus {
        match number {
            BEGIN_NUMBER => AtomicGroupStatus::Begin,
            MIDDLE_NUMBER => AtomicGroupStatus::Middle,
            _ => AtomicGroupStatus::End,
        }
    }
}

// The status that a byte stands for.
impl From<u8> for AtomicGroupStatus {
    ghost from_gives = { λ byte s. status_as s ≡ status_of byte };

    fn from(byte: u8) -> AtomicGroupStatus {
        AtomicGroupStatus::from(u64::from(byte))
    }
}

// Whether a key is reserved: "__" and then byte 1, and no more.
#[tactic(auto, using(crate::proofs::ItemLaws::key_three, crate::proofs::ItemLaws::key_other))]
pub fn is_internal_key(key: &[u8]) -> bool
    ensures { result ≡ equal_bytes key.now reserved_key }
{
    key.len() == RESERVED_LEN && key[0] == b'_' && key[1] == b'_' && key[2] == 1
}

// Whether a key change is of a reserved key.
fn is_reserved_key(kv: KeyValue, bytes: &[u8]) -> bool
    requires { kv.key_at + kv.key_len ≤ length bytes.now }
    ensures { result ≡ is_reserved (key_content kv bytes.now) }
{
    is_internal_key(bytes_of(bytes, kv.key_at, kv.key_len))
}

// Whether an item is of a reserved key.
pub fn is_reserved(content: LogItemContent, bytes: &[u8]) -> bool
    requires { BytesWithin content (length bytes.now) }
    ensures { (entries : List ℕ) → result ≡ is_reserved (content_of content entries bytes.now) }
{
    match content {
        LogItemContent::EntryIndexes(_) | LogItemContent::Command(_) => false,
        LogItemContent::Kv(kv) => is_reserved_key(kv, bytes),
    }
}

// The byte of a value of one byte.
fn one_byte(value: Option<Bytes>, bytes: &[u8]) -> Option<u8>
    requires { ValueWithin value (length bytes.now) }
    ensures { result ≡ one_byte (value_of value bytes.now) }
{
    match value {
        Some(value) if value.len == 1 => Some(bytes[value.at]),
        _ => None,
    }
}

// The status byte of a key change that is a mark: a Put of a reserved key with one value byte.
fn mark_byte_of_key(kv: KeyValue, bytes: &[u8]) -> Option<u8>
    requires { (kv.key_at + kv.key_len ≤ length bytes.now) × ValueWithin kv.value (length bytes.now) }
    ensures { result ≡ mark_byte (key_content kv bytes.now) }
{
    match kv.op_type {
        OpType::Put if is_reserved_key(kv, bytes) => one_byte(kv.value, bytes),
        _ => None,
    }
}

// The status byte of an item that is a mark.
pub fn mark_byte(content: LogItemContent, bytes: &[u8]) -> Option<u8>
    requires { BytesWithin content (length bytes.now) }
    ensures { (entries : List ℕ) → result ≡ mark_byte (content_of content entries bytes.now) }
{
    match content {
        LogItemContent::EntryIndexes(_) | LogItemContent::Command(_) => None,
        LogItemContent::Kv(kv) => mark_byte_of_key(kv, bytes),
    }
}

// The mark that item i is, if it is one.
fn mark_at(batch: &LogBatch, i: usize) -> Option<Mark>
    requires { i < count_in batch.now }
    ensures { mark_as result ≡ mark_here i (item_in i batch.now) }
{
    let Ok(item) = open_item(batch, i) else {
        return None;
    };
    let byte = mark_byte(item.content, batch.bytes)?;
    Some(Mark {
        at: i,
        raft_group_id: item.raft_group_id,
        byte,
    })
}

// The first mark of a batch.
pub fn first_mark(batch: &LogBatch) -> Option<Mark>
    ensures { mark_as result ≡ first_mark 0 (items_in batch.now) }
{
    for i in 0..row_count(batch.items) {
        if let Some(mark) = mark_at(batch, i) {
            return Some(mark);
        }
    }
    None
}
