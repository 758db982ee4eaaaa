// The items of a part of another room, added to a room with one tag.
ghost use Rattle.std.specs.Prelude.{List, [], ◌∷◌, ◌≡◌, ◌+◌, ◌*◌, ◌≤◌, ◌<◌, length, get_or};
ghost use Rattle.rules.specs.Items as rules;
ghost use Rattle.log_batch.specs.Lent.{item_of};
ghost use Rattle.stores.specs.Written.{count_of, Lent};
ghost use Rattle.stores.specs.Stores.{Stored};
ghost use Rattle.stores.specs.Tags.{Tagged, items_with};
ghost use Rattle.room.specs.Rooms.{area_in};
ghost use Rattle.room.specs.Layout.{store_of, room_of, context_cells, tagged, RoomWf};
ghost use Rattle.room.specs.Batches.{counts_for, PushedAll};
ghost use Rattle.room.specs.Items.{AddedIn};
ghost use Rattle.room.specs.Parts.{WroteIn};
ghost use Rattle.waiting.specs.Merges.{HasRoom, items_from};

use log_batch::item::LogItem;
use room::{CELLS, ENTRIES, ENTRIES_FROM, HEADS_AT, add, item_in, settle, tag_at};
use std::marker::Model;
use stores::Store;

// The items of a part of another room: those that have its tag. The value is the list of them.
#[derive(Drop)]
pub struct PartItems<'a> {
    pub numbers: &'a [u64],
    pub bytes: &'a [u8],
    pub tag: u64,
}

impl<'a> Model for PartItems<'a> {
    ghost Value = { List rules.LogItem };

    ghost view = { λ p. items_from p.numbers.now p.bytes.now p.tag };

    ghost invariant = { λ p. RoomWf context_cells p.numbers.now p.bytes.now };
}

// Adds an item of another room with a tag, for which there is room.
fn add_from(
    ws: &mut [u64],
    vs: &mut [u8],
    store: Store,
    tag: u64,
    item: LogItem,
    us: &[u64],
    ds: &[u8],
) -> Store
    requires ws_len { (length ws.old ≡ 2 + context_cells * 218) × (length vs.old ≡ context_cells * 512) }
    requires stored { Stored store (area_in (room_of context_cells ws.old vs.old)) }
    requires us_len { (length us.now ≡ 2 + context_cells * 218) × (length ds.now ≡ context_cells * 512) }
    requires lent { Lent item (context_cells * 128) (context_cells * 512) }
    requires store_bound { (store.items < context_cells * 8) × (store.entries + count_of item.content ≤ context_cells * 16) }
    ensures { AddedIn store (room_of context_cells ws.old vs.old) tag (item_of item (room_of context_cells us.now ds.now).entries (room_of context_cells us.now ds.now).bytes) result (room_of context_cells ws.new vs.new) }
{
    let b = HEADS_AT + CELLS * ENTRIES_FROM;
    let f = b + CELLS * ENTRIES;
    add(ws, vs, CELLS, store, tag, item, &us[b..f], ds)
}

// Adds item `j` of another room with a tag, if it has the tag `its`.
fn push_one(
    ws: &mut [u64],
    vs: &mut [u8],
    store: Store,
    tag: u64,
    us: &[u64],
    ds: &[u8],
    its: u64,
    j: usize,
) -> Store
    requires ws_len { (length ws.old ≡ 2 + context_cells * 218) × (length vs.old ≡ context_cells * 512) }
    requires stored { Stored store (area_in (room_of context_cells ws.old vs.old)) }
    requires room_wf { RoomWf context_cells us.now ds.now }
    requires j_bound { j < (store_of us.now).items }
    requires has_room { HasRoom context_cells store its (tagged us.now ds.now) j }
    ensures { (z : Tagged) → PushedAll store (room_of context_cells ws.old vs.old) tag (items_with its (get_or (tagged us.now ds.now) j z ∷ [])) result (room_of context_cells ws.new vs.new) }
{
    if tag_at(us, j) != its {
        return store;
    }
    let item = item_in(us, ds, CELLS, j);
    add_from(ws, vs, store, tag, item, us, ds)
}

// Adds the items of another room that have the tag `its`, for which there is room, with a tag.
pub fn push_part(
    ws: &mut [u64],
    vs: &mut [u8],
    store: Store,
    tag: u64,
    us: &[u64],
    ds: &[u8],
    its: u64,
) -> Store
    requires ws_len { (length ws.old ≡ 2 + context_cells * 218) × (length vs.old ≡ context_cells * 512) }
    requires stored { Stored store (area_in (room_of context_cells ws.old vs.old)) }
    requires room_wf { RoomWf context_cells us.now ds.now }
    requires its_bound { (store.items + (counts_for (items_from us.now ds.now its)).items ≤ context_cells * 8) × (store.entries + (counts_for (items_from us.now ds.now its)).entries ≤ context_cells * 16) }
    ensures { PushedAll store (room_of context_cells ws.old vs.old) tag (items_from us.now ds.now its) result (room_of context_cells ws.new vs.new) }
{
    let mut all = store;
    for j in 0..us[0] as usize {
        all = push_one(ws, vs, all, tag, us, ds, its, j);
    }
    all
}

// Adds the items of a part of another room, for which there is room, with a tag, and writes the head of their part.
pub fn move_part(
    ws: &mut [u64],
    vs: &mut [u8],
    k: usize,
    head: &[u64],
    store: Store,
    tag: u64,
    its: &PartItems,
)
    requires ws_len { (length ws.old ≡ 2 + context_cells * 218) × (length vs.old ≡ context_cells * 512) × (k < context_cells) × (length head.now ≡ 10) }
    requires stored { Stored store (area_in (room_of context_cells ws.old vs.old)) }
    requires its_bound { (store.items + (counts_for its.now).items ≤ context_cells * 8) × (store.entries + (counts_for its.now).entries ≤ context_cells * 16) }
    ensures { WroteIn k head.now tag its.now store (room_of context_cells ws.old vs.old) (store_of ws.new) (room_of context_cells ws.new vs.new) }
{
    let all = push_part(ws, vs, store, tag, its.numbers, its.bytes, its.tag);
    settle(ws, CELLS, k, head, all);
}
