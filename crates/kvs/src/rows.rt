// One row of a group's keys: read, written, made room for and taken out.
ghost use Rattle.std.specs.Prelude.{◌≡◌, ◌+◌, ◌*◌, ◌≤◌, ◌<◌, length, get_or};
ghost use Rattle.pipe_log.specs.Rows.{queue_at};
ghost use Rattle.kvs.specs.Rows.{row_at, key_of, value_of};
ghost use Rattle.kvs.specs.RowIn.{RowIn};
ghost use Rattle.kvs.specs.Writes.{written_rows, written_bytes, opened, closed};
ghost use Rattle.kvs.specs.Calls.{held_by, moved_rows};

use pipe_log::{FileId, LogQueue, REWRITE};

// Numbers in a row: the lengths of the key and of the value, and the queue and the number of the file.
pub const ROW_WIDTH: usize = 4;

// Bytes in a row, a half for the key and a half for the value, and the place of the value among them.
pub const ROW_BYTES: usize = 2 * VALUE_AT;

pub const VALUE_AT: usize = 32;

// Numbers in a row of a lent list: the two lengths.
pub const LENS_WIDTH: usize = 2;

// The key of row `i`, as the part of the area that holds it.
#[tactic(auto, using(crate::specs::RowIn::key_rules))]
pub fn key_at<'a>(rows: &[u64], bytes: &'a [u8], i: usize) -> &'a [u8]
    requires { RowIn i rows.now bytes.now }
    ensures value { result.now ≡ key_of (row_at i rows.now bytes.now) }
    ensures upper_bound { length result.now ≤ 32 }
{
    let a = i * ROW_BYTES;
    let e = a + rows[i * ROW_WIDTH] as usize;
    &bytes[a..e]
}

// The value of row `i`, as the part of the area that holds it.
#[tactic(auto, using(crate::specs::RowIn::value_rules))]
pub fn value_at<'a>(rows: &[u64], bytes: &'a [u8], i: usize) -> &'a [u8]
    requires { RowIn i rows.now bytes.now }
    ensures value { result.now ≡ value_of (row_at i rows.now bytes.now) }
    ensures upper_bound { length result.now ≤ 32 }
{
    let a = i * ROW_BYTES + VALUE_AT;
    let e = a + rows[i * ROW_WIDTH + 1] as usize;
    &bytes[a..e]
}

// The file of row `i`.
pub fn file_at(rows: &[u64], i: usize) -> FileId
    requires { i * 4 + 4 ≤ length rows.now }
    ensures { (result.queue ≡ queue_at (get_or rows.now (i * 4 + 2) 0)) × (result.seq ≡ get_or rows.now (i * 4 + 3) 0) }
{
    let at = i * ROW_WIDTH + 2;
    let queue = LogQueue::from(rows[at]);
    FileId {
        queue,
        seq: rows[at + 1],
    }
}

// Writes row `i`: its numbers, and as many of its bytes as the key and the value have.
pub fn write_row(
    rows: &mut [u64],
    bytes: &mut [u8],
    i: usize,
    key: &[u8],
    value: &[u8],
    queue: LogQueue,
    seq: u64,
)
    requires i_in_bounds { (i * 4 + 4 ≤ length rows.old) × (i * 64 + 64 ≤ length bytes.old) }
    requires key_len_bound { (length key.now ≤ 32) × (length value.now ≤ 32) }
    ensures rows_after { rows.new ≡ written_rows i key.now (held_by value.now queue seq) rows.old }
    ensures bytes_after { bytes.new ≡ written_bytes i key.now (held_by value.now queue seq) bytes.old }
{
    let at = i * ROW_WIDTH;
    rows[at] = key.len() as u64;
    rows[at + 1] = value.len() as u64;
    rows[at + 2] = u64::from(queue);
    rows[at + 3] = seq;
    cells::copy_in(bytes, i * ROW_BYTES, key);
    cells::copy_in(bytes, i * ROW_BYTES + VALUE_AT, value);
}

// Moves the rows from row `i` of `n` up by one.
#[tactic(auto, unfolding(crate::specs::Writes::opened))]
pub fn open_row(n: usize, rows: &mut [u64], bytes: &mut [u8], i: usize)
    requires i_le_n { i ≤ n }
    requires n_in_bounds { (n * 4 + 4 ≤ length rows.old) × (n * 64 + 64 ≤ length bytes.old) }
    ensures rows_after { rows.new ≡ opened 4 n i rows.old }
    ensures bytes_after { bytes.new ≡ opened 64 n i bytes.old }
{
    cells::shift(
        rows,
        i * ROW_WIDTH,
        i * ROW_WIDTH + ROW_WIDTH,
        (n - i) * ROW_WIDTH,
    );
    cells::shift(
        bytes,
        i * ROW_BYTES,
        i * ROW_BYTES + ROW_BYTES,
        (n - i) * ROW_BYTES,
    );
}

// Moves the rows after row `i` of `n` down by one.
#[tactic(auto, unfolding(crate::specs::Writes::closed))]
pub fn close_row(n: usize, rows: &mut [u64], bytes: &mut [u8], i: usize)
    requires i_lt_n { i < n }
    requires n_in_bounds { (n * 4 ≤ length rows.old) × (n * 64 ≤ length bytes.old) }
    ensures rows_after { rows.new ≡ closed 4 n i rows.old }
    ensures bytes_after { bytes.new ≡ closed 64 n i bytes.old }
{
    let left = n - (i + 1);
    cells::shift(
        rows,
        i * ROW_WIDTH + ROW_WIDTH,
        i * ROW_WIDTH,
        left * ROW_WIDTH,
    );
    cells::shift(
        bytes,
        i * ROW_BYTES + ROW_BYTES,
        i * ROW_BYTES,
        left * ROW_BYTES,
    );
}

// Puts a new row in before row `i` of `n`.
pub fn insert_row(
    n: usize,
    rows: &mut [u64],
    bytes: &mut [u8],
    i: usize,
    key: &[u8],
    value: &[u8],
    queue: LogQueue,
    seq: u64,
)
    requires i_le_n { i ≤ n }
    requires n_in_bounds { (n * 4 + 4 ≤ length rows.old) × (n * 64 + 64 ≤ length bytes.old) }
    requires key_len_bound { (length key.now ≤ 32) × (length value.now ≤ 32) }
    ensures rows_after { rows.new ≡ written_rows i key.now (held_by value.now queue seq) (opened 4 n i rows.old) }
    ensures bytes_after { bytes.new ≡ written_bytes i key.now (held_by value.now queue seq) (opened 64 n i bytes.old) }
{
    open_row(n, rows, bytes, i);
    write_row(rows, bytes, i, key, value, queue, seq);
}

// Sets the file of row `i` to Rewrite file `seq`.
#[tactic(auto, using(crate::proofs::Rewrites::two_stores))]
pub fn move_file(rows: &mut [u64], i: usize, seq: u64)
    requires { i * 4 + 4 ≤ length rows.old }
    ensures { rows.new ≡ moved_rows i seq rows.old }
{
    let at = i * ROW_WIDTH + 2;
    rows[at] = REWRITE;
    rows[at + 1] = seq;
}
