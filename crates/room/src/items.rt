// The items of a room with their tags: one is added, and a tag is taken out. `stores::parts` does so on four slices; a room is one slice of
// numbers, and to take it apart into three at each step is no plainer.
ghost use Rattle.std.specs.Prelude.{true, ◌≡◌, ◌+◌, ◌*◌, ◌/◌, ◌≤◌, ◌<◌, eqb, length, get_or, drop};
ghost use Rattle.log_batch.specs.Lent.{row_count_of, opened_row, OpenedWithin, item_of};
ghost use Rattle.stores.specs.Written.{count_of, Behind, Lent};
ghost use Rattle.stores.specs.Stores.{Stored};
ghost use Rattle.stores.specs.Tags.{Movable};
ghost use Rattle.room.specs.Rooms.{area_in};
ghost use Rattle.room.specs.Layout.{room_of};
ghost use Rattle.room.specs.Items.{item_in, OpenedIn, AddedIn, MovedIn, KeepingIn, TakenIn};

use crate::places::{copy_rows, move_rows, write_row};
use crate::{ENTRIES, ENTRIES_FROM, HEADS_AT, ITEMS, ITEMS_FROM, TAGS_FROM};
use log_batch::LogBatch;
use log_batch::item::LogItem;
use log_batch::open::{Unopened, open_item};
use stores::Store;
use stores::row::ITEM_BYTES;

// Adds an item with its tag, for which there is room.
pub fn add(
    ws: &mut [u64],
    vs: &mut [u8],
    cells: usize,
    store: Store,
    tag: u64,
    item: LogItem,
    its_entries: &[u64],
    its_bytes: &[u8],
) -> Store
    requires ws_len { (length ws.old ≡ 2 + cells * 218) × (length vs.old ≡ cells * 512) }
    requires stored { Stored store (area_in (room_of cells ws.old vs.old)) }
    requires lent { Lent item (length its_entries.now) (length its_bytes.now) }
    requires store_bound { (store.items < cells * 8) × (store.entries + count_of item.content ≤ cells * 16) }
    ensures { AddedIn store (room_of cells ws.old vs.old) tag (item_of item its_entries.now its_bytes.now) result (room_of cells ws.new vs.new) }
{
    write_row(ws, cells, store.items, item, store.entries);
    let end = copy_rows(ws, cells, store.entries, item.content, its_entries);
    ws[HEADS_AT + cells * TAGS_FROM + store.items] = tag;
    stores::add::copy_bytes(vs, store.items * ITEM_BYTES, item.content, its_bytes);
    Store {
        items: store.items + 1,
        entries: end,
    }
}

// Opens item `j` of a room.
pub fn open_in(ws: &[u64], vs: &[u8], cells: usize, j: usize) -> Result<LogItem, Unopened>
    requires ws_len { (length ws.now ≡ 2 + cells * 218) × (length vs.now ≡ cells * 512) }
    requires j_bound { j < cells * 8 }
    ensures { OpenedIn (room_of cells ws.now vs.now) j result }
{
    let a = HEADS_AT + cells * ITEMS_FROM;
    let e = a + cells * ITEMS;
    let b = HEADS_AT + cells * ENTRIES_FROM;
    let f = b + cells * ENTRIES;
    let parts = LogBatch {
        items: &ws[a..e],
        entries: &ws[b..f],
        bytes: vs,
    };
    open_item(&parts, j)
}

// Moves an item of the room down behind fewer items.
fn put_down(ws: &mut [u64], vs: &mut [u8], cells: usize, left: Store, item: LogItem) -> Store
    requires ws_len { (length ws.old ≡ 2 + cells * 218) × (length vs.old ≡ cells * 512) }
    requires stored { Stored left (area_in (room_of cells ws.old vs.old)) }
    requires lent { Lent item (cells * 128) (cells * 512) }
    requires left_bound { (left.items < cells * 8) × (left.entries + count_of item.content ≤ cells * 16) }
    requires behind { Behind item.content left.entries (left.items * 64) }
    ensures { MovedIn left (room_of cells ws.old vs.old) (item_of item (room_of cells ws.old vs.old).entries (room_of cells ws.old vs.old).bytes) result (room_of cells ws.new vs.new) }
{
    write_row(ws, cells, left.items, item, left.entries);
    let end = move_rows(ws, cells, left.entries, item.content);
    stores::shift::move_bytes(vs, left.items * ITEM_BYTES, item.content);
    Store {
        items: left.items + 1,
        entries: end,
    }
}

// Moves item `j` down behind the items that are left.
fn keep_item(ws: &mut [u64], vs: &mut [u8], cells: usize, left: Store, j: usize) -> Store
    requires ws_len { (length ws.old ≡ 2 + cells * 218) × (length vs.old ≡ cells * 512) }
    requires stored { Stored left (area_in (room_of cells ws.old vs.old)) }
    requires movable { Movable left j (area_in (room_of cells ws.old vs.old)) }
    ensures { MovedIn left (room_of cells ws.old vs.old) (item_in j (room_of cells ws.old vs.old)) result (room_of cells ws.new vs.new) }
{
    let Ok(item) = open_in(ws, vs, cells, j) else {
        unreachable!()
    };
    put_down(ws, vs, cells, left, item)
}

// The same with its tag, unless it has the tag that is taken out.
fn keep_other(ws: &mut [u64], vs: &mut [u8], cells: usize, left: Store, j: usize, tag: u64) -> Store
    requires ws_len { (length ws.old ≡ 2 + cells * 218) × (length vs.old ≡ cells * 512) }
    requires stored { Stored left (area_in (room_of cells ws.old vs.old)) }
    requires movable { Movable left j (area_in (room_of cells ws.old vs.old)) }
    requires left_le_j { (left.items ≤ j) × (j < cells * 8) }
    ensures { KeepingIn tag left (room_of cells ws.old vs.old) j result (room_of cells ws.new vs.new) }
{
    let from = HEADS_AT + cells * TAGS_FROM;
    let its = ws[from + j];
    if its == tag {
        return left;
    }
    ws[from + left.items] = its;
    keep_item(ws, vs, cells, left, j)
}

// Takes out the items that have a tag. The others move down, in order and with their tags.
pub fn take_out(ws: &mut [u64], vs: &mut [u8], cells: usize, store: Store, tag: u64) -> Store
    requires ws_len { (length ws.old ≡ 2 + cells * 218) × (length vs.old ≡ cells * 512) }
    requires stored { Stored store (area_in (room_of cells ws.old vs.old)) }
    ensures { TakenIn store (room_of cells ws.old vs.old) tag result (room_of cells ws.new vs.new) }
{
    let mut left = Store {
        items: 0,
        entries: 0,
    };
    for j in 0..store.items {
        left = keep_other(ws, vs, cells, left, j, tag);
    }
    left
}
