// Items of a room, read and copied out of it.
ghost use Rattle.std.specs.Prelude.{List, ◌≡◌, ℕ, ◌+◌, ◌*◌, ◌≤◌, ◌<◌, ◌^◌, length, get_or};
ghost use Rattle.cells.specs.Part.{part, put};
ghost use Rattle.log_batch.specs.Lent.{RowsWithin};
ghost use Rattle.stores.specs.Written.{placed_value, placed_key, placed, key_length, rows_of, count_of};
ghost use Rattle.stores.specs.Stores.{Stored, ItemAt};
ghost use Rattle.stores.specs.Tags.{Tagged};
ghost use Rattle.room.specs.Rooms.{area_in};
ghost use Rattle.room.specs.Layout.{store_of, room_of, tagged, ContextRoom};
ghost use Rattle.room.specs.Items.{ItemCopied};

use crate::items::open_in;
use crate::{CELLS, ENTRIES, ENTRIES_FROM, HEADS_AT, TAGS_FROM};
use log_batch::item::{Bytes, EntryIndexes, KeyValue, LogItem, LogItemContent, OpType};

// The tag of item `j` of a context's room.
pub fn tag_at(ws: &[u64], j: usize) -> u64
    requires { (length ws.now ≡ 3490) × (j < 128) }
    ensures { (vs : List ℕ) (z : Tagged) → j < (store_of ws.now).items → (get_or (tagged ws.now vs) j z).tag ≡ result }
{
    ws[HEADS_AT + CELLS * TAGS_FROM + j]
}

// Opens item `j` of a room. Every row in use opens.
pub fn item_in(ws: &[u64], vs: &[u8], cells: usize, j: usize) -> LogItem
    requires ws_len { (length ws.now ≡ 2 + cells * 218) × (length vs.now ≡ cells * 512) }
    requires stored { Stored (store_of ws.now) (area_in (room_of cells ws.now vs.now)) }
    requires j_bound { j < (store_of ws.now).items }
    ensures { ItemAt (store_of ws.now) (area_in (room_of cells ws.now vs.now)) j result }
{
    let Ok(item) = open_in(ws, vs, cells, j) else {
        unreachable!()
    };
    item
}

// A value at another place.
fn placed_value(value: Option<Bytes>, at: usize) -> Option<Bytes>
    ensures { result ≡ placed_value value at }
{
    match value {
        None => None,
        Some(value) => Some(Bytes { at, len: value.len }),
    }
}

// A key change whose key and value stand from place `at`.
fn placed_key(kv: KeyValue, at: usize) -> KeyValue
    requires { at + kv.key_len < 2 ^ 64 }
    ensures { result ≡ placed_key kv.op_type kv at }
{
    let key_len = kv.key_len;
    match kv.op_type {
        OpType::Put => KeyValue {
            op_type: OpType::Put,
            key_at: at,
            key_len,
            value: placed_value(kv.value, at + key_len),
            file_id: kv.file_id,
        },
        OpType::Del => KeyValue {
            op_type: OpType::Del,
            key_at: at,
            key_len,
            value: None,
            file_id: None,
        },
    }
}

// An item whose rows of entries stand from row `row`, and its bytes from place `at`.
#[tactic(auto, unfolding(stores::specs::Written::placed))]
fn placed_item(item: LogItem, row: usize, at: usize) -> LogItem
    requires { at + key_length item.content < 2 ^ 64 }
    ensures { result ≡ placed item row at }
{
    let content = match item.content {
        LogItemContent::EntryIndexes(list) => LogItemContent::EntryIndexes(EntryIndexes {
            at: row,
            count: list.count,
        }),
        LogItemContent::Command(command) => LogItemContent::Command(command),
        LogItemContent::Kv(kv) => LogItemContent::Kv(placed_key(kv, at)),
    };
    LogItem {
        raft_group_id: item.raft_group_id,
        content,
    }
}

// Copies the rows of entries of an item of a room to the front of a slice.
fn copy_entries(ws: &[u64], cells: usize, content: LogItemContent, es: &mut [u64])
    requires ws_len { length ws.now ≡ 2 + cells * 218 }
    requires rows_within { RowsWithin content (cells * 128) }
    requires content_in_bounds { count_of content * 8 ≤ length es.old }
    ensures { es.new ≡ put es.old 0 (rows_of content (part (2 + cells * 90) (cells * 128) ws.now)) }
{
    let b = HEADS_AT + cells * ENTRIES_FROM;
    let f = b + cells * ENTRIES;
    stores::add::copy_rows(es, 0, content, &ws[b..f]);
}

// Copies item `j` of a context's room to the front of lent slices.
pub fn copy_item(ws: &[u64], vs: &[u8], j: usize, es: &mut [u64], bs: &mut [u8]) -> LogItem
    requires context_room { ContextRoom ws.now vs.now }
    requires j_bound { j < get_or ws.now 0 0 }
    requires es_len { (length es.old ≡ 1024) × (length bs.old ≡ 64) }
    ensures { ItemCopied ws.now vs.now j result es.new bs.new }
{
    let item = item_in(ws, vs, CELLS, j);
    copy_entries(ws, CELLS, item.content, es);
    stores::add::copy_bytes(bs, 0, item.content, vs);
    placed_item(item, 0, 0)
}
