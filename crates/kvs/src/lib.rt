// One group's keys over lent parts: the `kvs` map of src/memtable.rs's MemTable. The number of keys goes in by value and comes back;
// `rows` has 4 numbers a key and `bytes` 64 bytes a key, in byte order of the keys from the front.
#![tactic(auto)]

pub mod files;
pub mod keys;
pub mod merge;
pub mod rows;

ghost use Rattle.std.specs.Prelude.{◌≤◌, length};
ghost use Rattle.kvs.specs.Rows.{Wf};
ghost use Rattle.kvs.specs.Calls.{held_by, PutKey, DeleteKey, RewriteKey};

pub use files::{count_of, least_seq};
pub use keys::Keys;
pub use merge::merge_keys;
use pipe_log::{APPEND, Cause, LogQueue};
use rows::{ROW_BYTES, ROW_WIDTH, close_row, insert_row, move_file, write_row};

// Puts a key of at most 32 bytes with a value of at most 32 bytes and its file.
#[tactic(auto, using(crate::proofs::Search::at_below, crate::proofs::Search::before_below))]
pub fn put(
    n: usize,
    rows: &mut [u64],
    bytes: &mut [u8],
    key: &[u8],
    value: &[u8],
    queue: LogQueue,
    seq: u64,
) -> Result<usize, Cause>
    requires wf { Wf n rows.old bytes.old }
    requires key_len_bound { (length key.now ≤ 32) × (length value.now ≤ 32) }
    ensures { PutKey n rows.old bytes.old key.now (held_by value.now queue seq) result rows.new bytes.new }
{
    let place = Keys::new(n, rows, bytes).find(key);
    match place {
        Ok(i) => {
            write_row(rows, bytes, i, key, value, queue, seq);
            Ok(n)
        }
        Err(i) => {
            if rows.len() - n * ROW_WIDTH < ROW_WIDTH {
                return Err(Cause::LimitPassed);
            }
            if bytes.len() - n * ROW_BYTES < ROW_BYTES {
                return Err(Cause::LimitPassed);
            }
            insert_row(n, rows, bytes, i, key, value, queue, seq);
            Ok(n + 1)
        }
    }
}

// Deletes a key of any length; an absent one stays absent.
#[tactic(auto, using(crate::proofs::Search::at_below))]
pub fn delete(n: usize, rows: &mut [u64], bytes: &mut [u8], key: &[u8]) -> usize
    requires { Wf n rows.old bytes.old }
    ensures { DeleteKey n rows.old bytes.old key.now result rows.new bytes.new }
{
    let place = Keys::new(n, rows, bytes).find(key);
    let Ok(i) = place else {
        return n;
    };
    close_row(n, rows, bytes, i);
    n - 1
}

// `rewrite_key` of a key of any length to Rewrite file `seq`, gated or not. The bytes stay.
#[tactic(auto, using(crate::proofs::Search::at_below))]
pub fn rewrite_key(
    n: usize,
    rows: &mut [u64],
    bytes: &[u8],
    key: &[u8],
    gate: Option<u64>,
    seq: u64,
) -> Result<(), Cause>
    requires { Wf n rows.old bytes.now }
    ensures { RewriteKey n rows.old bytes.now key.now gate seq result rows.new }
{
    let place = Keys::new(n, rows, bytes).find(key);
    let Ok(i) = place else {
        return Ok(());
    };
    let queue = rows[i * ROW_WIDTH + 2];
    let held = rows[i * ROW_WIDTH + 3];
    if queue == APPEND {
        let Some(highest) = gate else {
            return Ok(());
        };
        if highest < held {
            return Ok(());
        }
        move_file(rows, i, seq);
        return Ok(());
    }
    if seq < held {
        return Err(Cause::KeyGoesBack);
    }
    move_file(rows, i, seq);
    Ok(())
}
