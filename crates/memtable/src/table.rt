// The table as a whole: what goes by entries and keys together.
ghost use Rattle.std.specs.Prelude.{◌≡◌, ◌/◌, length};
ghost use Rattle.memtable.specs.Views.{Wf};
ghost use Rattle.memtable.specs.Whole.{MinFileSeq};

use crate::Head;
use pipe_log::LogQueue;

// The least file of a queue by the front entry of its run and its keys, with the span: `rows` are the numbers of the group's keys.
pub fn min_file_seq(head: Head, part: &[u64], rows: &[u64], queue: LogQueue) -> Option<u64>
    requires { Wf head part.now }
    ensures { MinFileSeq head part.now (length rows.now / 4) rows.now queue result }
{
    head.min_file_seq(part, queue, kvs::least_seq(rows, queue))
}
