// What a refused batch goes back to. Before an item that is not the last one writes a stretch, what it will write is saved in the
// stretch's spare: the header once, rows of entries lower and lower, and the keys before they are written.
ghost use Rattle.std.specs.Prelude.{true, false, List, ◌≡◌, ℕ, ◌+◌, ◌≤◌, ◌<◌, length};
ghost use Rattle.stretch.specs.Stretch.{is_used, head_part, key_count};
ghost use Rattle.stretch.specs.Reach.{row_from, writes_keys};
ghost use Rattle.groups.specs.Area.{stretch_at, Wf, Found};
ghost use Rattle.groups.specs.Undo.{mark_at, low_of, Undoable, ReadyFor, ReadyToGo, Begun, Securing, Undone, Restorable, Marking, Lowering, KeySaving, Covering, FrontBack, KeysBack, UndoneAt};

use crate::calls::free_at;
use crate::{SLOTS, Slot};
use kvs::rows::{ROW_BYTES, ROW_WIDTH};
use pipe_log::ENTRY_WIDTH;
use stretch::{BYTES, Change, ENTRIES_AT, ENTRY_COUNT, KEY_COUNT, KEYS_AT, STRETCH};

// The numbers of a header behind its first one, in whose place a spare stretch has its mark.
const HEADER_REST: usize = ENTRIES_AT - 1;

// Clears the marks of the spare stretches.
pub fn begin(xs: &mut [u64])
    requires { 9376 ≤ length xs.old }
    ensures { (bs : List ℕ) → Wf xs.old bs → Begun xs.old bs xs.new }
{
    for k in 0..SLOTS {
        xs[(SLOTS + k) * STRETCH] = 0;
    }
}

// Saves the header of stretch k, which is used, if there is no mark yet.
#[tactic(auto, using(crate::proofs::Savings::entries_in))]
fn save_header(xs: &mut [u64], k: usize)
    requires k_bound { (k < 8) × (9376 ≤ length xs.old) }
    requires xs_bound { (head_part (stretch_at k xs.old)).len ≤ 64 }
    ensures { (bs : List ℕ) → Restorable k xs.old bs → is_used (stretch_at k xs.old) ≡ true → Marking k xs.old bs xs.new bs }
{
    let from = k * STRETCH;
    let to = (SLOTS + k) * STRETCH;
    if xs[to] == 0 {
        let entries = xs[from + ENTRY_COUNT];
        cells::shift(xs, from + 1, to + 1, HEADER_REST);
        xs[to] = 2 + 2 * entries;
    }
}

// Saves the rows of entries of stretch k from row `first` up to the lowest one that is saved.
#[tactic(auto, unfolding(crate::specs::Undo::mark_at))]
fn save_rows(xs: &mut [u64], k: usize, first: usize)
    requires k_bound { (k < 8) × (9376 ≤ length xs.old) }
    requires xs_bound { low_of (mark_at k xs.old) ≤ 64 }
    ensures { (bs : List ℕ) → Restorable k xs.old bs → Lowering k first xs.old bs xs.new bs }
{
    let to = (SLOTS + k) * STRETCH;
    let mark = xs[to];
    if mark < 2 {
        return;
    }
    let low = (mark / 2 - 1) as usize;
    if low <= first {
        return;
    }
    let place = ENTRIES_AT + first * ENTRY_WIDTH;
    cells::shift(
        xs,
        k * STRETCH + place,
        to + place,
        (low - first) * ENTRY_WIDTH,
    );
    xs[to] = 2 + 2 * (first as u64) + mark % 2;
}

// Saves the keys in use of stretch k, if they are not saved yet.
fn save_keys(xs: &mut [u64], bs: &mut [u8], k: usize)
    requires restorable { Restorable k xs.old bs.old }
    requires bound { 1 ≤ mark_at k xs.old }
    ensures { KeySaving k xs.old bs.old xs.new bs.new }
{
    let to = (SLOTS + k) * STRETCH;
    let mark = xs[to];
    if mark % 2 == 1 {
        return;
    }
    let keys = xs[to + KEY_COUNT] as usize;
    cells::shift(xs, k * STRETCH + KEYS_AT, to + KEYS_AT, keys * ROW_WIDTH);
    cells::shift(bs, k * BYTES, (SLOTS + k) * BYTES, keys * ROW_BYTES);
    xs[to] = mark + 1;
}

// Saves what rows of entries from row `first` on, and keys if `keys`, overwrite in stretch k, which is used.
fn save_at(xs: &mut [u64], bs: &mut [u8], k: usize, first: usize, keys: bool)
    requires restorable { Restorable k xs.old bs.old }
    requires xs_value { is_used (stretch_at k xs.old) ≡ true }
    ensures { Covering k first keys xs.old bs.old xs.new bs.new }
{
    save_header(xs, k);
    save_rows(xs, k, first);
    if keys {
        save_keys(xs, bs, k);
    }
}

// Saves what a change overwrites in stretch k, which is used.
#[tactic(auto, using(crate::proofs::Applying::lent_numbers, crate::proofs::Securings::covering_by))]
fn secure_used(xs: &mut [u64], bs: &mut [u8], k: usize, change: Change)
    requires restorable { Restorable k xs.old bs.old }
    requires xs_value { is_used (stretch_at k xs.old) ≡ true }
    ensures { Covering k (row_from change (head_part (stretch_at k xs.old))) (writes_keys change) xs.old bs.old xs.new bs.new }
{
    let a = k * STRETCH;
    let e = a + STRETCH;
    let head = stretch::head_in(&xs[a..e]);
    let first = stretch::row_from(head, change);
    let keys = stretch::writes_keys(change);
    save_at(xs, bs, k, first, keys);
}

// Marks stretch k, which is free. If it was not free before the batch, all that it held is saved.
#[tactic(auto, using(crate::proofs::Securings::kept_restorable), unfolding(crate::specs::Undo::mark_at))]
fn secure_free(xs: &mut [u64], bs: &mut [u8], k: usize)
    requires restorable { Restorable k xs.old bs.old }
    requires xs_value { is_used (stretch_at k xs.old) ≡ false }
    ensures { Covering k 0 true xs.old bs.old xs.new bs.new }
{
    let to = (SLOTS + k) * STRETCH;
    if xs[to] == 0 {
        xs[to] = 1;
        return;
    }
    save_rows(xs, k, 0);
    save_keys(xs, bs, k);
}

// Makes sure that what a change overwrites at a slot can be gone back to.
#[tactic(auto, using(crate::proofs::Securings::nothing_secured, crate::proofs::Securings::full_ready))]
pub fn secure(xs: &mut [u64], bs: &mut [u8], slot: Slot, group: u64, change: Change)
    requires wf { Wf xs.old bs.old }
    requires undoable { Undoable xs.old bs.old }
    requires found { Found group xs.old slot }
    ensures { Securing (ReadyFor change slot) xs.old bs.old xs.new bs.new }
{
    match slot {
        Slot::At(k) => secure_used(xs, bs, k, change),
        Slot::Free(k) => secure_free(xs, bs, k),
        Slot::Full => {}
    }
}

// Makes sure that the group at a slot can be gone back to when it is removed.
#[tactic(auto, using(crate::proofs::Securings::nothing_secured, crate::proofs::Securings::free_ready, crate::proofs::Securings::none_ready))]
pub fn secure_removal(xs: &mut [u64], bs: &[u8], slot: Slot, group: u64)
    requires wf { Wf xs.old bs.now }
    requires undoable { Undoable xs.old bs.now }
    requires found { Found group xs.old slot }
    ensures { Securing (ReadyToGo slot) xs.old bs.now xs.new bs.now }
{
    match slot {
        Slot::At(k) => save_header(xs, k),
        Slot::Free(_) => {}
        Slot::Full => {}
    }
}

// Copies the header and the rows of entries that the spare of stretch k holds back.
#[tactic(auto, using(crate::proofs::Savings::entries_in), unfolding(crate::specs::Undo::mark_at))]
fn restore_front(xs: &mut [u64], k: usize)
    requires k_bound { (k < 8) × (9376 ≤ length xs.old) × (2 ≤ mark_at k xs.old) }
    requires xs_bound { (low_of (mark_at k xs.old) ≤ (head_part (stretch_at (8 + k) xs.old)).len) × ((head_part (stretch_at (8 + k) xs.old)).len ≤ 64) }
    ensures { FrontBack k xs.old xs.new }
{
    let from = (SLOTS + k) * STRETCH;
    let to = k * STRETCH;
    let low = (xs[from] / 2 - 1) as usize;
    let entries = xs[from + ENTRY_COUNT] as usize;
    let place = ENTRIES_AT + low * ENTRY_WIDTH;
    cells::shift(xs, from + 1, to + 1, HEADER_REST);
    cells::shift(xs, from + place, to + place, (entries - low) * ENTRY_WIDTH);
    xs[to] = 1;
}

// Copies the keys in use of the spare of stretch k back.
#[tactic(auto, using(crate::proofs::Savings::keys_in_lem, crate::proofs::Restorings::keys_laid_back))]
fn restore_keys(xs: &mut [u64], bs: &mut [u8], k: usize)
    requires k_bound { (k < 8) × (9376 ≤ length xs.old) × (16384 ≤ length bs.old) }
    requires xs_bound { key_count (stretch_at (8 + k) xs.old) ≤ 16 }
    ensures { KeysBack k xs.old bs.old xs.new bs.new }
{
    let from = (SLOTS + k) * STRETCH;
    let keys = xs[from + KEY_COUNT] as usize;
    cells::shift(xs, from + KEYS_AT, k * STRETCH + KEYS_AT, keys * ROW_WIDTH);
    cells::shift(bs, (SLOTS + k) * BYTES, k * BYTES, keys * ROW_BYTES);
}

// Takes stretch k back.
#[tactic(auto, using(crate::proofs::Restorings::front_ready), unfolding(crate::specs::Undo::mark_at))]
fn undo_at(xs: &mut [u64], bs: &mut [u8], k: usize)
    requires { Restorable k xs.old bs.old }
    ensures { UndoneAt k xs.old bs.old xs.new bs.new }
{
    let mark = xs[(SLOTS + k) * STRETCH];
    if mark == 0 {
        return;
    }
    if mark == 1 {
        free_at(xs, k);
        return;
    }
    restore_front(xs, k);
    if mark % 2 == 1 {
        restore_keys(xs, bs, k);
    }
}

// Takes the stretches back.
pub fn undo(xs: &mut [u64], bs: &mut [u8])
    requires wf { Wf xs.old bs.old }
    requires undoable { Undoable xs.old bs.old }
    ensures { Undone xs.old bs.old xs.new bs.new }
{
    for k in 0..SLOTS {
        undo_at(xs, bs, k);
    }
}
