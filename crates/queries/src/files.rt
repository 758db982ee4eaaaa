// What is asked of the files of a group's entries and keys.
ghost use Rattle.std.specs.Prelude.{◌≡◌, ◌≤◌, ◌<◌, length};
ghost use Rattle.rules.specs.Causes.{by_cause, Ok};
ghost use Rattle.rules.specs.TableQueries.{min_file_seq};
ghost use Rattle.rules.specs.Queries.{in_group};
ghost use Rattle.stretch.specs.Stretch.{table_in};
ghost use Rattle.stretch.specs.Stretch as stretch;
ghost use Rattle.groups.specs.Area.{stretch_at, bytes_at};

use crate::places::{entry_rows, head_at, key_count_at, key_rows, place_of};
use contexts::Area;
use kvs::rows::ROW_WIDTH;
use pipe_log::{Cause, LogQueue};

// The least file of a queue in the group of stretch k.
fn min_file_seq_at(xs: &[u64], bs: &[u8], k: usize, queue: LogQueue) -> Option<u64>
    requires k_bound { (k < 8) × (9376 ≤ length xs.now) }
    requires wf { stretch.Wf (stretch_at k xs.now) (bytes_at k bs.now) }
    ensures { result ≡ min_file_seq queue (table_in (stretch_at k xs.now) (bytes_at k bs.now)) }
{
    let head = head_at(xs, k);
    let entries = entry_rows(xs, k);
    let n = key_count_at(xs, k);
    let rows = key_rows(xs, k);
    memtable::table::min_file_seq(head, entries, &rows[..n * ROW_WIDTH], queue)
}

// The least file of a queue in a group, with the group's span.
pub fn min_file_seq(area: &Area, group: u64, queue: LogQueue) -> Result<Option<u64>, Cause>
    ensures { by_cause result ≡ in_group group (λ t. Ok (min_file_seq queue t)) area.now }
{
    let k = place_of(area.xs, group)?;
    Ok(min_file_seq_at(area.xs, area.bs, k, queue))
}
