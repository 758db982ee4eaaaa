// The calls that write. Each gives back a well-formed area.
ghost use Rattle.contexts.specs.Contexts.{Wf};

use index::{Area, LogBatch};
use pipe_log::{FileId, LogQueue, Refusal};
use scripts::{Row, option_of};

// The calls of one context: 0 fresh, which is never refused, 1 replay, 4 append, otherwise rewrite.
pub fn write(row: Row, xs: &mut [u64], bs: &mut [u8], batch: &LogBatch) -> Result<(), Refusal>
    requires { Wf xs.old bs.old }
    ensures { Wf xs.new bs.new }
{
    let queue = LogQueue::from(row.a);
    let file = FileId::new(queue, row.b);
    match row.what {
        0 => {
            index::fresh(xs, bs, queue);
            Ok(())
        }
        1 => index::replay(xs, bs, file, batch),
        4 => index::append(xs, bs, file, batch),
        _ => {
            let gate = option_of(row.c, row.d);
            index::rewrite(xs, bs, gate, file, batch)
        }
    }
}

// The calls of two contexts: 2 merge, otherwise join.
pub fn unite(what: u64, xs: &mut [u64], bs: &mut [u8], newer: &Area) -> Result<(), Refusal>
    requires { Wf xs.old bs.old }
    ensures { Wf xs.new bs.new }
{
    if what == 2 {
        return index::merge(xs, bs, newer);
    }
    index::join(xs, bs, newer)
}
