// Where a group stands, and the parts of its stretch. What speaks of a stretch takes the slices, here and in the other modules, since a
// clause sees of an `Area` the context alone.
ghost use Rattle.std.specs.Prelude.{List, ◌≡◌, ℕ, ◌≤◌, ◌<◌, length, IfOk};
ghost use Rattle.stretch.specs.Stretch.{head_part, entry_rows, key_count, key_rows};
ghost use Rattle.groups.specs.Area.{stretch_at, bytes_at};
ghost use Rattle.contexts.specs.Contexts.{Wf};
ghost use Rattle.queries.specs.Places.{Stands};

use groups::Slot;
use memtable::Head;
use pipe_log::Cause;
use stretch::{BYTES, ENTRIES_AT, KEY_COUNT, KEYS_AT, STRETCH};

// The stretch where a group stands.
pub fn place_of(xs: &[u64], group: u64) -> Result<usize, Cause>
    requires { 9376 ≤ length xs.now }
    ensures stands { (bs : List ℕ) → Wf xs.now bs → Stands group xs.now bs result }
    ensures inside { IfOk result (λ k. k < 8) }
{
    let Slot::At(k) = groups::find(xs, group) else {
        return Err(Cause::GroupAbsent);
    };
    Ok(k)
}

// The head of stretch k.
pub fn head_at(xs: &[u64], k: usize) -> Head
    requires { (k < 8) × (9376 ≤ length xs.now) }
    ensures { result ≡ head_part (stretch_at k xs.now) }
{
    let a = k * STRETCH;
    let e = a + STRETCH;
    stretch::head_in(&xs[a..e])
}

// The rows of entries of stretch k.
pub fn entry_rows(xs: &[u64], k: usize) -> &[u64]
    requires { (k < 8) × (9376 ≤ length xs.now) }
    ensures { result.now ≡ entry_rows (stretch_at k xs.now) }
{
    let a = k * STRETCH + ENTRIES_AT;
    let e = k * STRETCH + KEYS_AT;
    &xs[a..e]
}

// The number of keys of stretch k.
pub fn key_count_at(xs: &[u64], k: usize) -> usize
    requires { (k < 8) × (9376 ≤ length xs.now) }
    ensures { result ≡ key_count (stretch_at k xs.now) }
{
    xs[k * STRETCH + KEY_COUNT] as usize
}

// The rows of keys of stretch k.
pub fn key_rows(xs: &[u64], k: usize) -> &[u64]
    requires { (k < 8) × (9376 ≤ length xs.now) }
    ensures { result.now ≡ key_rows (stretch_at k xs.now) }
{
    let a = k * STRETCH + KEYS_AT;
    let e = k * STRETCH + STRETCH;
    &xs[a..e]
}

// The bytes of the keys of stretch k.
pub fn key_bytes(bs: &[u8], k: usize) -> &[u8]
    requires { (k < 8) × (16384 ≤ length bs.now) }
    ensures { result.now ≡ bytes_at k bs.now }
{
    let a = k * BYTES;
    let e = a + BYTES;
    &bs[a..e]
}
