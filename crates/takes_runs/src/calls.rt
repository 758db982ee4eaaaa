// The two calls of the index that the program makes, on Append contexts.
ghost use Rattle.rules.specs.Calls as rules·calls;
ghost use Rattle.log_batch.specs.Batch.{batch_in};
ghost use Rattle.contexts.specs.Contexts.{context_of, Called};
ghost use Rattle.takes_runs.specs.Steps.{AppendArea};

use index::{Area, LogBatch};
use pipe_log::{FileId, Refusal};

// Replays a batch into an Append context.
pub fn replay(ys: &mut [u64], cs: &mut [u8], file: FileId, batch: &LogBatch) -> Result<(), Refusal>
    requires { AppendArea ys.old cs.old }
    ensures { Called (rules·calls.replay (batch_in file batch.now)) ys.old cs.old result ys.new cs.new }
{
    index::replay(ys, cs, file, batch)
}

// Merges a newer Append context into an older one.
pub fn merge(xs: &mut [u64], bs: &mut [u8], ys: &[u64], cs: &[u8]) -> Result<(), Refusal>
    requires append_area { AppendArea xs.old bs.old }
    requires append_area_2 { AppendArea ys.now cs.now }
    ensures { Called (rules·calls.merge (context_of ys.now cs.now)) xs.old bs.old result xs.new bs.new }
{
    index::merge(xs, bs, &Area { xs: ys, bs: cs })
}
