// Changes of a group's keys, each by the keys' own function on the rows of the stretch from `keys_at` on and its bytes.
#![tactic(auto, unfolding(crate::specs::Stretch::key_count, crate::specs::Stretch::key_rows_at, crate::specs::Stretch::key_rows, cells::specs::Part::part))]

ghost use Rattle.std.specs.Prelude.{◌≡◌, ◌≤◌, length};
ghost use Rattle.rules.specs.Causes.{Ok};
ghost use Rattle.rules.specs.Table.{put_key, delete_key, rewritten_key};
ghost use Rattle.kvs.specs.Calls.{held_by};
ghost use Rattle.stretch.specs.Stretch.{entry_rows_at, WfAt, table_in, Wf};
ghost use Rattle.stretch.specs.Changes.{ChangedAt, keys_laid};

use crate::{KEY_COUNT, KEYS_AT, STRETCH};
use kvs::Keys;
use pipe_log::{Cause, LogQueue};

// Puts a key with its value and file.
pub fn put(
    p: &mut [u64],
    b: &mut [u8],
    keys_at: usize,
    key: &[u8],
    value: &[u8],
    queue: LogQueue,
    seq: u64,
) -> Result<(), Cause>
    requires wf_at { WfAt keys_at p.old b.old }
    requires key_len_bound { (length key.now ≤ 32) × (length value.now ≤ 32) }
    ensures changed_at { ChangedAt keys_at (λ t. Ok (put_key key.now (held_by value.now queue seq) t)) p.old b.old result p.new b.new }
    ensures p_unchanged { entry_rows_at keys_at p.new ≡ entry_rows_at keys_at p.old }
{
    let n = p[KEY_COUNT] as usize;
    let e = p.len();
    let m = kvs::put(n, &mut p[keys_at..e], b, key, value, queue, seq)?;
    p[KEY_COUNT] = m as u64;
    Ok(())
}

// Deletes a key; an absent one stays absent.
pub fn delete(p: &mut [u64], b: &mut [u8], keys_at: usize, key: &[u8]) -> Result<(), Cause>
    requires { WfAt keys_at p.old b.old }
    ensures changed_at { ChangedAt keys_at (λ t. Ok (delete_key key.now t)) p.old b.old result p.new b.new }
    ensures p_unchanged { entry_rows_at keys_at p.new ≡ entry_rows_at keys_at p.old }
{
    let n = p[KEY_COUNT] as usize;
    let e = p.len();
    let left = kvs::delete(n, &mut p[keys_at..e], b, key);
    p[KEY_COUNT] = left as u64;
    Ok(())
}

// Moves a key's file to Rewrite file `seq`, gated or not. The bytes stay.
pub fn rewrite_key(
    p: &mut [u64],
    b: &[u8],
    keys_at: usize,
    key: &[u8],
    gate: Option<u64>,
    seq: u64,
) -> Result<(), Cause>
    requires { WfAt keys_at p.old b.now }
    ensures changed_at { ChangedAt keys_at (rewritten_key key.now gate seq) p.old b.now result p.new b.now }
    ensures p_unchanged { entry_rows_at keys_at p.new ≡ entry_rows_at keys_at p.old }
{
    let n = p[KEY_COUNT] as usize;
    let e = p.len();
    kvs::rewrite_key(n, &mut p[keys_at..e], b, key, gate, seq)
}

// Lays the keys of a newer group's stretch over those of the stretch; a key of both takes the newer value and file.
pub fn lay_keys(
    p: &mut [u64],
    b: &mut [u8],
    keys_at: usize,
    newer: &[u64],
    newbytes: &[u8],
) -> Result<(), Cause>
    requires wf_at { WfAt keys_at p.old b.old }
    requires wf { Wf newer.now newbytes.now }
    ensures { ChangedAt keys_at (keys_laid (table_in newer.now newbytes.now).keys) p.old b.old result p.new b.new }
{
    let m = newer[KEY_COUNT] as usize;
    let a = KEYS_AT;
    let z = STRETCH;
    let keys = Keys::new(m, &newer[a..z], newbytes);
    let n = p[KEY_COUNT] as usize;
    let e = p.len();
    let all = kvs::merge_keys(n, &mut p[keys_at..e], b, &keys)?;
    p[KEY_COUNT] = all as u64;
    Ok(())
}
