// What has been read of a line, and what a whole line says.
ghost use Rattle.std.specs.Prelude.{Some, ◌≡◌, ◌≤◌, ◌<◌, IfSome, codes, replicate};
ghost use Rattle.std.proofs.Props.{props};

use crate::fields::{Field, Letter};
use crate::reader::{ITEM_NUMBERS, KEY_VALUE_BYTES, ROW_NUMBERS};
use pipe_log::FileId;
use std::error::Error;
use std::fmt;

// What has been read of a line that is not malformed so far. Of a list, a key or a value one more is kept than document 01's bound,
// since it is refused then whatever it holds: `count` entries in the lent rows, the key's bytes in the lent bytes from place 0 and
// the value's from place 33. The counts stand beside the lent memory, since there is no heap here.
#[derive(Clone, Copy)]
pub struct OpenLine {
    // none before it is read
    pub letter: Option<Letter>,
    // the open field
    pub field: Field,
    // the value of the open number's digits, if it has one
    pub number: Option<u64>,
    // the first digit of a byte, if it waits for the second
    pub high: Option<u8>,
    pub group: u64,
    // the index of the next entry, from `first` on, if it is below 2^64
    pub next: Option<u64>,
    pub index: u64,
    pub file: u64,
    pub count: usize,
    pub key_len: usize,
    pub value_len: usize,
    ghost is_digit: { IfSome high (λ d. d < 16) } by { Prim.hlevel props },
    ghost entries_kept: { count ≤ 33 },
    ghost key_kept: { key_len ≤ 33 },
    ghost value_kept: { value_len ≤ 33 },
}

// The memory that is lent for the item of a line: its row, the rows of its entries, and the bytes of its key and its value.
#[derive(Drop)]
pub struct Lent {
    pub items: [u64; ITEM_NUMBERS],
    pub rows: [u64; ROW_NUMBERS],
    pub bytes: [u8; KEY_VALUE_BYTES],
}

impl Lent {
    pub fn new() -> Self
        ensures { (result.items ≡ replicate 9 0) × (result.rows ≡ replicate 264 0) × (result.bytes ≡ replicate 66 0) }
    {
        Lent {
            items: [0; ITEM_NUMBERS],
            rows: [0; ROW_NUMBERS],
            bytes: [0; KEY_VALUE_BYTES],
        }
    }
}

// A line that says nothing.
#[derive(Clone, Copy, Debug, PartialEq, Eq)]
pub struct Malformed;

impl fmt::Display for Malformed {
    ghost output = { λ _. Some (codes "malformed line") };

    fn fmt<W: fmt::Write>(&self, f: &mut fmt::Formatter<W>) -> fmt::Result {
        f.write_str("malformed line")
    }
}

impl Error for Malformed {}

// The reader of a line: a line that is malformed stays so, whatever follows.
pub type LineReader = Result<OpenLine, Malformed>;

// What a line says: the next run, or a batch with this file, of the one item in the lent rows and bytes.
#[derive(Clone, Copy)]
pub enum Line {
    NextRun,
    Batch(FileId),
}
