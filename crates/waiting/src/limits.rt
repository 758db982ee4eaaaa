// The limits of what waits, judged from counts before anything is written.
#![tactic(auto, unfolding(crate::specs::Forms::form_groups, crate::specs::Forms::used_from))]

ghost use Rattle.std.specs.Prelude.{cond, ◌&&◌, ◌≡◌, ◌+◌, ◌*◌, ◌≤◌, ◌<◌, eqb, leb, length};
ghost use Rattle.cells.specs.Part.{part};
ghost use Rattle.stores.specs.Stores.{entries_before};
ghost use Rattle.stores.specs.Tags.{count_tag};
ghost use Rattle.room.specs.Rooms.{head_at, count_in, newest_tag};
ghost use Rattle.room.specs.Layout.{store_of};
ghost use Rattle.waiting.specs.Forms.{Keeps, used_from, form_groups};

use crate::Form;
use room::{
    HEAD_WIDTH, HEADS_AT, ITEMS, ITEMS_FROM, MAX_ENTRIES, MAX_GROUPS, MAX_ITEMS, NEWEST_AT, TAGS,
    TAGS_FROM, counts_in,
};
use stores::Store;
use stores::count::count_tag;

// 1 for a cell that is in use, 0 for a free one.
#[tactic(auto, using(crate::proofs::Limiting::used_none, crate::proofs::Limiting::used_some))]
fn used_at(ws: &[u64], cells: usize, k: usize) -> usize
    requires { (length ws.now ≡ 2 + cells * 218) × (k < cells) }
    ensures value { result ≡ cond (eqb (count_in (head_at k (part 2 (cells * 10) ws.now))) 0) 0 1 }
    ensures upper_bound { result ≤ 1 }
{
    if ws[HEADS_AT + k * HEAD_WIDTH] == 0 {
        0
    } else {
        1
    }
}

// How many cells are in use.
pub fn count_used(ws: &[u64], cells: usize) -> usize
    requires { length ws.now ≡ 2 + cells * 218 }
    ensures value { result ≡ used_from cells 0 (part 2 (cells * 10) ws.now) }
    ensures upper_bound { result ≤ cells }
{
    let mut used = 0;
    for k in 0..cells {
        used += used_at(ws, cells, k);
    }
    used
}

// How many groups wait with the part.
pub fn groups_with(ws: &[u64], cells: usize, form: Form) -> usize
    requires { length ws.now ≡ 2 + cells * 218 }
    ensures { result ≡ form_groups form (used_from cells 0 (part 2 (cells * 10) ws.now)) }
{
    let used = count_used(ws, cells);
    match form {
        Form::First => used + 1,
        Form::Front | Form::Replace | Form::Join => used,
    }
}

// The counts of the items of a room that have a tag.
fn count_in(ws: &[u64], cells: usize, store: Store, tag: u64) -> Store
    requires ws_len { (length ws.now ≡ 2 + cells * 218) × (store.items ≤ cells * 8) }
    requires ws_value { entries_before store.items (part (2 + cells * 18) (cells * 72) ws.now) ≡ store.entries }
    ensures { result ≡ count_tag tag store.items (part (2 + cells * 18) (cells * 72) ws.now) (part (2 + cells * 10) (cells * 8) ws.now) }
{
    let a = HEADS_AT + cells * ITEMS_FROM;
    let e = a + cells * ITEMS;
    let b = HEADS_AT + cells * TAGS_FROM;
    let f = b + cells * TAGS;
    count_tag(store, &ws[a..e], &ws[b..f], tag)
}

// The counts without the items of the newest part of cell `k`.
fn counts_without(ws: &[u64], cells: usize, k: usize, store: Store) -> Store
    requires ws_len { (length ws.now ≡ 2 + cells * 218) × (k < cells) × (store.items ≤ cells * 8) }
    requires ws_value { entries_before store.items (part (2 + cells * 18) (cells * 72) ws.now) ≡ store.entries }
    ensures { Keeps Form.Replace (newest_tag (head_at k (part 2 (cells * 10) ws.now))) (part (2 + cells * 18) (cells * 72) ws.now) (part (2 + cells * 10) (cells * 8) ws.now) store result }
{
    let tag = ws[HEADS_AT + k * HEAD_WIDTH + NEWEST_AT];
    let freed = count_in(ws, cells, store, tag);
    Store {
        items: store.items - freed.items,
        entries: store.entries - freed.entries,
    }
}

// The counts of what is left of a room where the part comes to cell `k`.
pub fn counts_left(ws: &[u64], cells: usize, k: usize, form: Form) -> Store
    requires ws_len { (length ws.now ≡ 2 + cells * 218) × (k < cells) × ((store_of ws.now).items ≤ cells * 8) }
    requires ws_value { entries_before (store_of ws.now).items (part (2 + cells * 18) (cells * 72) ws.now) ≡ (store_of ws.now).entries }
    ensures keeps { Keeps form (newest_tag (head_at k (part 2 (cells * 10) ws.now))) (part (2 + cells * 18) (cells * 72) ws.now) (part (2 + cells * 10) (cells * 8) ws.now) (store_of ws.now) result }
    ensures result_bound { (result.items ≤ (store_of ws.now).items) × (result.entries ≤ (store_of ws.now).entries) }
{
    let store = counts_in(ws);
    match form {
        Form::Replace => counts_without(ws, cells, k, store),
        Form::First | Form::Front | Form::Join => store,
    }
}

// Whether the limits allow so many groups, and these items together.
pub fn within_limits(groups: usize, left: Store, more: Store) -> bool
    requires { (left.items ≤ 64) × (left.entries ≤ 128) × (more.items ≤ 32) × (more.entries ≤ 1024) }
    ensures { result ≡ (leb groups 8 && leb (left.items + more.items) 64 && leb (left.entries + more.entries) 128) }
{
    groups <= MAX_GROUPS
        && left.items + more.items <= MAX_ITEMS
        && left.entries + more.entries <= MAX_ENTRIES
}
