// The items of a marked batch but its mark: their counts, and all of them added to a room with one tag.
ghost use Rattle.std.specs.Prelude.{[], ◌∷◌, ◌≡◌, ◌+◌, ◌*◌, ◌≤◌, ◌<◌, length};
ghost use Rattle.log_batch.specs.Batch.{count_in, item_in, items_in};
ghost use Rattle.stores.specs.Stores.{Stored};
ghost use Rattle.room.specs.Rooms.{area_in};
ghost use Rattle.room.specs.Layout.{room_of};
ghost use Rattle.room.specs.Batches.{unmarked, counts_for, Unmarks, PushedAll};

use crate::items::add;
use log_batch::RewriteReplay;
use log_batch::item::LogItem;
use log_batch::mark::mark_byte;
use log_batch::open::{open_item, row_count};
use stores::Store;
use stores::add::count_of;

// Item `i` of a batch that passed the checks, unless it is the mark.
fn unmarked_at(replay: &RewriteReplay, i: usize) -> Option<LogItem>
    requires { i < count_in replay.now.batch }
    ensures { Unmarks replay.now.batch i result }
{
    let Ok(item) = open_item(&replay.batch, i) else {
        unreachable!()
    };
    match mark_byte(item.content, replay.batch.bytes) {
        Some(_) => None,
        None => Some(item),
    }
}

// The counts so far, with item `i` unless it is the mark.
fn count_item(count: Store, replay: &RewriteReplay, i: usize) -> Store
    requires i_bound { i < count_in replay.now.batch }
    requires count_le_i { (count.items ≤ i) × (count.entries ≤ i * 32) }
    ensures result_value { result.items ≡ count.items + (counts_for (unmarked (item_in i replay.now.batch ∷ []))).items }
    ensures entries_value { result.entries ≡ count.entries + (counts_for (unmarked (item_in i replay.now.batch ∷ []))).entries }
    ensures result_bound { (result.items ≤ i + 1) × (result.entries ≤ (i + 1) * 32) }
{
    let Some(item) = unmarked_at(replay, i) else {
        return count;
    };
    Store {
        items: count.items + 1,
        entries: count.entries + count_of(item.content),
    }
}

// The counts of the items of a batch but the mark.
pub fn count_batch(replay: &RewriteReplay) -> Store
    ensures value { result ≡ counts_for (unmarked (items_in replay.now.batch)) }
    ensures result_bound { (result.items ≤ 32) × (result.entries ≤ 1024) }
{
    let mut count = Store {
        items: 0,
        entries: 0,
    };
    for i in 0..row_count(replay.batch.items) {
        count = count_item(count, replay, i);
    }
    count
}

// Adds item `i` with a tag, unless it is the mark.
fn push_item(
    ws: &mut [u64],
    vs: &mut [u8],
    cells: usize,
    store: Store,
    tag: u64,
    replay: &RewriteReplay,
    i: usize,
) -> Store
    requires ws_len { (length ws.old ≡ 2 + cells * 218) × (length vs.old ≡ cells * 512) }
    requires stored { Stored store (area_in (room_of cells ws.old vs.old)) }
    requires i_bound { i < count_in replay.now.batch }
    requires bound { (store.items + (counts_for (unmarked (item_in i replay.now.batch ∷ []))).items ≤ cells * 8) × (store.entries + (counts_for (unmarked (item_in i replay.now.batch ∷ []))).entries ≤ cells * 16) }
    ensures { PushedAll store (room_of cells ws.old vs.old) tag (unmarked (item_in i replay.now.batch ∷ [])) result (room_of cells ws.new vs.new) }
{
    let Some(item) = unmarked_at(replay, i) else {
        return store;
    };
    let batch = replay.batch;
    add(ws, vs, cells, store, tag, item, batch.entries, batch.bytes)
}

// Adds the items of a batch but the mark, for which there is room, with a tag.
pub fn push_batch(
    ws: &mut [u64],
    vs: &mut [u8],
    cells: usize,
    store: Store,
    tag: u64,
    replay: &RewriteReplay,
) -> Store
    requires ws_len { (length ws.old ≡ 2 + cells * 218) × (length vs.old ≡ cells * 512) }
    requires stored { Stored store (area_in (room_of cells ws.old vs.old)) }
    requires bound { (store.items + (counts_for (unmarked (items_in replay.now.batch))).items ≤ cells * 8) × (store.entries + (counts_for (unmarked (items_in replay.now.batch))).entries ≤ cells * 16) }
    ensures { PushedAll store (room_of cells ws.old vs.old) tag (unmarked (items_in replay.now.batch)) result (room_of cells ws.new vs.new) }
{
    let mut all = store;
    for i in 0..row_count(replay.batch.items) {
        all = push_item(ws, vs, cells, all, tag, replay, i);
    }
    all
}
