// Contexts and the index for C and Rust: the calls of `index`, with number and place for an answer.
ghost use Rattle.std.specs.Prelude.{◌≡◌, length};
ghost use Rattle.rules.specs.Calls as rules·calls;
ghost use Rattle.pipe_log.specs.Rows.{queue_at};
ghost use Rattle.log_batch.specs.Lent.{batch_of};
ghost use Rattle.contexts.specs.Contexts.{context_of, Wf, FreshArea};
ghost use Rattle.galdnyrr.specs.Told.{file_of, gate_or, Told};

use crate::numbers::{file_of, gate_of, tell};
use index::{Area, LogBatch};
use pipe_log::LogQueue;

// Makes a fresh context of a queue, whatever the area held.
#[unsafe(no_mangle)]
pub extern "C" fn galdnyrr_fresh(xs: &mut [u64], bs: &mut [u8], queue: u64)
    requires { (length xs.old ≡ 17231) × (length bs.old ≡ 38912) }
    ensures { FreshArea (queue_at queue) xs.new bs.new }
{
    contexts::fresh(xs, bs, LogQueue::from(queue));
}

// Replays a batch into a context of its file's queue.
#[unsafe(no_mangle)]
pub extern "C" fn galdnyrr_replay(
    xs: &mut [u64],
    bs: &mut [u8],
    queue: u64,
    seq: u64,
    items: &[u64],
    entries: &[u64],
    bytes: &[u8],
    place: &mut u64,
) -> u64
    requires { Wf xs.old bs.old }
    ensures { Told (rules·calls.replay (batch_of (file_of queue seq) items.now entries.now bytes.now)) xs.old bs.old result place.new xs.new bs.new }
{
    let batch = LogBatch {
        items,
        entries,
        bytes,
    };
    let answer = index::replay(xs, bs, file_of(queue, seq), &batch);
    tell(answer, place)
}

// Merges a newer context, which is only read, into an older one of the same queue.
#[unsafe(no_mangle)]
pub extern "C" fn galdnyrr_merge(
    xs: &mut [u64],
    bs: &mut [u8],
    ys: &[u64],
    cs: &[u8],
    place: &mut u64,
) -> u64
    requires wf { Wf xs.old bs.old }
    requires wf_2 { Wf ys.now cs.now }
    ensures { Told (rules·calls.merge (context_of ys.now cs.now)) xs.old bs.old result place.new xs.new bs.new }
{
    let answer = index::merge(xs, bs, &Area { xs: ys, bs: cs });
    tell(answer, place)
}

// Joins an Append context, which is only read, to a Rewrite context, which becomes the index.
#[unsafe(no_mangle)]
pub extern "C" fn galdnyrr_join(
    xs: &mut [u64],
    bs: &mut [u8],
    ys: &[u64],
    cs: &[u8],
    place: &mut u64,
) -> u64
    requires wf { Wf xs.old bs.old }
    requires wf_2 { Wf ys.now cs.now }
    ensures { Told (rules·calls.join (context_of ys.now cs.now)) xs.old bs.old result place.new xs.new bs.new }
{
    let answer = index::join(xs, bs, &Area { xs: ys, bs: cs });
    tell(answer, place)
}

// Appends a batch to the index.
#[unsafe(no_mangle)]
pub extern "C" fn galdnyrr_append(
    xs: &mut [u64],
    bs: &mut [u8],
    queue: u64,
    seq: u64,
    items: &[u64],
    entries: &[u64],
    bytes: &[u8],
    place: &mut u64,
) -> u64
    requires { Wf xs.old bs.old }
    ensures { Told (rules·calls.append (batch_of (file_of queue seq) items.now entries.now bytes.now)) xs.old bs.old result place.new xs.new bs.new }
{
    let batch = LogBatch {
        items,
        entries,
        bytes,
    };
    let answer = index::append(xs, bs, file_of(queue, seq), &batch);
    tell(answer, place)
}

// Rewrites a batch in the index, gated or not; a key's new number is the batch's.
#[unsafe(no_mangle)]
pub extern "C" fn galdnyrr_rewrite(
    xs: &mut [u64],
    bs: &mut [u8],
    gated: bool,
    gate: u64,
    queue: u64,
    seq: u64,
    items: &[u64],
    entries: &[u64],
    bytes: &[u8],
    place: &mut u64,
) -> u64
    requires { Wf xs.old bs.old }
    ensures { Told (rules·calls.rewrite (gate_or gated gate) (batch_of (file_of queue seq) items.now entries.now bytes.now)) xs.old bs.old result place.new xs.new bs.new }
{
    let batch = LogBatch {
        items,
        entries,
        bytes,
    };
    let answer = index::rewrite(xs, bs, gate_of(gated, gate), file_of(queue, seq), &batch);
    tell(answer, place)
}
