// The end of the open field.
ghost use Rattle.std.specs.Prelude.{◌≡◌, length};
ghost use Rattle.takes_lines.specs.Reading.{close_length, close};
ghost use Rattle.takes_lines.specs.Views.{TurnsRows};

use crate::fields::Field;
use crate::line::{LineReader, Malformed, OpenLine};
use crate::reader::KEPT_MOST;
use pipe_log::ENTRY_WIDTH;

// A length: its entry goes into the lent rows, if it is kept.
#[tactic(auto, unfolding(crate::specs::Reading::close_length, crate::specs::Reading::close_number, crate::specs::Views::read_of, crate::specs::Views::reading_of, crate::specs::Views::named_of, takes_rules::specs::Fields::bind))]
fn close_length(mut line: OpenLine, rows: &mut [u64]) -> LineReader
    requires { length rows.old ≡ 264 }
    ensures { TurnsRows line rows.old result rows.new close_length }
{
    let index = line.next.ok_or(Malformed)?;
    let number = line.number.take().ok_or(Malformed)?;
    line.next = index.checked_add(1);
    if line.count == KEPT_MOST {
        return Ok(line);
    }
    let row = [index, 0, line.file, 0, 0, 0, 0, number];
    let at = line.count * ENTRY_WIDTH;
    rows[at..at + ENTRY_WIDTH].copy_from_slice(&row);
    line.count += 1;
    Ok(line)
}

// Closes the open field.
#[tactic(auto, unfolding(crate::specs::Reading::close, crate::specs::Reading::close_as, crate::specs::Reading::close_number, crate::specs::Reading::close_bytes, crate::specs::Views::read_of, crate::specs::Views::reading_of, crate::specs::Views::named_of, takes_rules::specs::Fields::bind))]
pub fn close(mut line: OpenLine, rows: &mut [u64]) -> LineReader
    requires { length rows.old ≡ 264 }
    ensures { TurnsRows line rows.old result rows.new close }
{
    match line.field {
        Field::Letter => {}
        Field::Group => line.group = line.number.take().ok_or(Malformed)?,
        Field::First => line.next = Some(line.number.take().ok_or(Malformed)?),
        Field::Index => line.index = line.number.take().ok_or(Malformed)?,
        Field::File => line.file = line.number.take().ok_or(Malformed)?,
        Field::Length => return close_length(line, rows),
        Field::Key | Field::Value => {
            if line.high.is_some() {
                return Err(Malformed);
            }
        }
        Field::Extra => return Err(Malformed),
    }
    Ok(line)
}
