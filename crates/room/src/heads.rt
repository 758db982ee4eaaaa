// The heads of parts: written with the counts of the store, and a newest part that leaves.
ghost use Rattle.std.specs.Prelude.{List, ◌≡◌, ℕ, ◌+◌, ◌*◌, ◌≤◌, ◌<◌, length, get_or};
ghost use Rattle.cells.specs.Part.{part};
ghost use Rattle.log_batch.specs.Batch.{items_in};
ghost use Rattle.stores.specs.Stores.{Stored};
ghost use Rattle.room.specs.Rooms.{area_in, head_at, count_in};
ghost use Rattle.room.specs.Layout.{store_of, room_of, RoomWf};
ghost use Rattle.room.specs.Batches.{unmarked, counts_for};
ghost use Rattle.room.specs.Parts.{left_head, Settled, WroteIn, TookPart};

use crate::batches::push_batch;
use crate::items::take_out;
use crate::{HEAD_WIDTH, HEADS_AT, NEWEST_AT};
use log_batch::RewriteReplay;
use stores::Store;

// The counts of the items of a room.
pub fn counts_in(ws: &[u64]) -> Store
    requires { 2 ≤ length ws.now }
    ensures { result ≡ store_of ws.now }
{
    Store {
        items: ws[0] as usize,
        entries: ws[1] as usize,
    }
}

// Writes the head of cell `k`, and the counts.
pub fn settle(ws: &mut [u64], cells: usize, k: usize, head: &[u64], store: Store)
    requires { (length ws.old ≡ 2 + cells * 218) × (k < cells) × (length head.now ≡ 10) }
    ensures { Settled cells k head.now store ws.old ws.new }
{
    cells::copy_in(ws, HEADS_AT + k * HEAD_WIDTH, head);
    ws[0] = store.items as u64;
    ws[1] = store.entries as u64;
}

// The head of cell `k` without its newest part.
fn left_head(ws: &[u64], cells: usize, k: usize) -> [u64; HEAD_WIDTH]
    requires ws_len { (length ws.now ≡ 2 + cells * 218) × (k < cells) }
    requires nonzero { 0 < get_or ws.now (2 + k * 10) 0 }
    ensures { result ≡ left_head (head_at k (part 2 (cells * 10) ws.now)) }
{
    let at = HEADS_AT + k * HEAD_WIDTH;
    let tag = ws[at + 6];
    let status = ws[at + 7];
    let start = ws[at + 8];
    let end = ws[at + 9];
    [
        ws[at] - 1,
        ws[at + 1],
        tag,
        status,
        start,
        end,
        tag,
        status,
        start,
        end,
    ]
}

// Takes out the newest part of cell `k`, which has parts.
pub fn take_part(ws: &mut [u64], vs: &mut [u8], cells: usize, k: usize)
    requires room_wf { RoomWf cells ws.old vs.old }
    requires k_lt_cells { (k < cells) × (0 < get_or ws.old (2 + k * 10) 0) }
    ensures { TookPart cells k ws.old vs.old ws.new vs.new }
{
    let store = counts_in(ws);
    let tag = ws[HEADS_AT + k * HEAD_WIDTH + NEWEST_AT];
    let head = left_head(ws, cells, k);
    let left = take_out(ws, vs, cells, store, tag);
    settle(ws, cells, k, &head, left);
}

// Adds the items of a batch but the mark with a tag, and writes the head of their part.
pub fn write_part(
    ws: &mut [u64],
    vs: &mut [u8],
    cells: usize,
    k: usize,
    head: &[u64],
    store: Store,
    tag: u64,
    replay: &RewriteReplay,
)
    requires ws_len { (length ws.old ≡ 2 + cells * 218) × (length vs.old ≡ cells * 512) × (k < cells) × (length head.now ≡ 10) }
    requires stored { Stored store (area_in (room_of cells ws.old vs.old)) }
    requires bound { (store.items + (counts_for (unmarked (items_in replay.now.batch))).items ≤ cells * 8) × (store.entries + (counts_for (unmarked (items_in replay.now.batch))).entries ≤ cells * 16) }
    ensures { WroteIn k head.now tag (unmarked (items_in replay.now.batch)) store (room_of cells ws.old vs.old) (store_of ws.new) (room_of cells ws.new vs.new) }
{
    let all = push_batch(ws, vs, cells, store, tag, replay);
    settle(ws, cells, k, head, all);
}
