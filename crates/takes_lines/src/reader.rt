// A line read byte by byte.
ghost use Rattle.std.specs.Prelude.{◌≡◌, [], ◌∷◌, length, Result};
ghost use Rattle.takes_rules.specs.Lines.{line_of};
ghost use Rattle.takes_lines.specs.Kept.{kept_line};
ghost use Rattle.takes_lines.specs.Views.{Started, GoesOn, Feeds, Finishes, answer_line};

use crate::add::add_to;
use crate::close::close;
use crate::fields::Field;
use crate::items::item_row;
use crate::line::{Lent, Line, LineReader, Malformed, OpenLine};
use log_batch::causes::MAX_BYTES;
use log_batch::open::ITEM_WIDTH;
use pipe_log::{ENTRY_WIDTH, FileId, LogQueue};

// What is kept of a list, a key or a value: one more than document 01's bound.
pub const KEPT_MOST: usize = MAX_BYTES + 1;

// Lengths are below 2^32.
pub const MOST_LENGTH: u64 = 4294967295;

// The lengths of what is lent: the row of one item, the rows of entries, the bytes of a key and a value.
pub const ITEM_NUMBERS: usize = ITEM_WIDTH;

pub const ROW_NUMBERS: usize = KEPT_MOST * ENTRY_WIDTH;

pub const KEY_VALUE_BYTES: usize = 2 * KEPT_MOST;

// Before the first byte.
#[tactic(auto, unfolding(crate::specs::Views::read_of, crate::specs::Views::reading_of, crate::specs::Views::named_of, cells::specs::Part::part, pipe_log::specs::Rows::entries_of))]
pub fn start() -> LineReader
    ensures { Started result }
{
    Ok(OpenLine {
        letter: None,
        field: Field::Letter,
        number: None,
        high: None,
        group: 0,
        next: Some(0),
        index: 0,
        file: 0,
        count: 0,
        key_len: 0,
        value_len: 0,
    })
}

// The next field is open.
#[tactic(auto, unfolding(crate::specs::Views::reading_of, crate::specs::Views::named_of))]
fn next_field(mut line: OpenLine) -> OpenLine
    ensures { GoesOn line result }
{
    line.field = line.field.after(line.letter);
    line
}

// One more byte of the line: what is kept of it goes into the lent rows and bytes.
#[tactic(auto, unfolding(crate::specs::Reading::read_bytes, crate::specs::Reading::read_byte, crate::specs::Reading::add_byte, crate::specs::Reading::next_field, crate::specs::Views::read_of, crate::specs::Views::reading_of, takes_rules::specs::Fields::bind))]
pub fn feed(reader: LineReader, b: u8, rows: &mut [u64], bytes: &mut [u8]) -> LineReader
    requires { (length rows.old ≡ 264) × (length bytes.old ≡ 66) }
    ensures { Feeds reader rows.old bytes.old result rows.new bytes.new (b ∷ []) }
{
    let line = reader?;
    if b == b',' {
        return Ok(next_field(close(line, rows)?));
    }
    add_to(line, b, bytes)
}

// More bytes of the line.
pub fn feed_all(
    mut reader: LineReader,
    text: &[u8],
    rows: &mut [u64],
    bytes: &mut [u8],
) -> LineReader
    requires { (length rows.old ≡ 264) × (length bytes.old ≡ 66) }
    ensures { Feeds reader rows.old bytes.old result rows.new bytes.new text.now }
{
    for b in text {
        reader = feed(reader, *b, rows, bytes);
    }
    reader
}

// The end of the line, whose item goes into the lent items.
#[tactic(auto, unfolding(crate::specs::Reading::end_line, crate::specs::Reading::whole_line, crate::specs::Reading::whole, crate::specs::Views::answer_line, crate::specs::Views::read_of, crate::specs::Views::reading_of, takes_rules::specs::Fields::bind))]
pub fn finish(reader: LineReader, items: &mut [u64], rows: &mut [u64]) -> Result<Line, Malformed>
    requires { (length items.old ≡ 9) × (length rows.old ≡ 264) }
    ensures { Finishes reader rows.old result items.new rows.new }
{
    let line = close(reader?, rows)?;
    if !line.field.is_last(line.letter) {
        return Err(Malformed);
    }
    if line.field == Field::Letter {
        return Ok(Line::NextRun);
    }
    items.copy_from_slice(&item_row(line));
    Ok(Line::Batch(FileId {
        queue: LogQueue::Append,
        seq: line.file,
    }))
}

// A whole line, without its newline.
pub fn read_line(
    text: &[u8],
    items: &mut [u64],
    rows: &mut [u64],
    bytes: &mut [u8],
) -> Result<Line, Malformed>
    requires { (length items.old ≡ 9) × (length rows.old ≡ 264) × (length bytes.old ≡ 66) }
    ensures { answer_line result items.new rows.new bytes.new ≡ kept_line (line_of text.now) }
{
    let reader = feed_all(start(), text, rows, bytes);
    finish(reader, items, rows)
}

// The same calls where one struct is lent.
impl Lent {
    // One more byte of the line.
    pub fn feed(&mut self, reader: LineReader, b: u8) -> LineReader
        ensures feeds { Feeds reader self.old.rows self.old.bytes result self.new.rows self.new.bytes (b ∷ []) }
        ensures same_items { self.new.items ≡ self.old.items }
    {
        feed(reader, b, &mut self.rows, &mut self.bytes)
    }

    // More bytes of the line.
    pub fn feed_all(&mut self, reader: LineReader, text: &[u8]) -> LineReader
        ensures feeds { Feeds reader self.old.rows self.old.bytes result self.new.rows self.new.bytes text.now }
        ensures same_items { self.new.items ≡ self.old.items }
    {
        feed_all(reader, text, &mut self.rows, &mut self.bytes)
    }

    // The end of the line.
    pub fn finish(&mut self, reader: LineReader) -> Result<Line, Malformed>
        ensures finishes { Finishes reader self.old.rows result self.new.items self.new.rows }
        ensures same_bytes { self.new.bytes ≡ self.old.bytes }
    {
        finish(reader, &mut self.items, &mut self.rows)
    }

    // A whole line, without its newline.
    pub fn read_line(&mut self, text: &[u8]) -> Result<Line, Malformed>
        ensures { answer_line result self.new.items self.new.rows self.new.bytes ≡ kept_line (line_of text.now) }
    {
        read_line(text, &mut self.items, &mut self.rows, &mut self.bytes)
    }
}
