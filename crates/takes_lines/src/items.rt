// The item of a whole line, as a row of a lent batch.
ghost use Rattle.std.specs.Prelude.{◌≡◌};
ghost use Rattle.takes_lines.specs.Views.{item_row};

use crate::fields::Field;
use crate::line::OpenLine;
use crate::reader::KEPT_MOST;
use log_batch::open::{CLEAN, COMPACT, DEL, HAS_VALUE, ITEM_WIDTH, LIST, PUT};
use pipe_log::APPEND;

// The row by the line's last field. A line with another last field is no batch, and its row is never read.
#[tactic(auto, unfolding(crate::specs::Views::item_row))]
pub fn item_row(line: OpenLine) -> [u64; ITEM_WIDTH]
    ensures { result ≡ item_row line.field line }
{
    let group = line.group;
    let count = line.count as u64;
    let key_len = line.key_len as u64;
    let value_at = KEPT_MOST as u64;
    let value_len = line.value_len as u64;
    match line.field {
        Field::Group => [group, CLEAN, 0, 0, 0, 0, 0, 0, 0],
        Field::Index => [group, COMPACT, line.index, 0, 0, 0, 0, 0, 0],
        Field::Length => [group, LIST, 0, count, 0, 0, 0, 0, 0],
        Field::Key => [group, DEL, 0, key_len, 0, 0, 0, 0, 0],
        Field::Value => [
            group, PUT, 0, key_len, HAS_VALUE, value_at, value_len, APPEND, line.file,
        ],
        Field::Letter | Field::First | Field::File | Field::Extra => {
            [group, LIST, 0, 0, 0, 0, 0, 0, 0]
        }
    }
}
