// What is asked of all groups, for C and Rust.
#![tactic(auto, using(crate::proofs::AskedLaws::numbers_told))]

ghost use Rattle.std.specs.Prelude.{◌≡◌};
ghost use Rattle.rules.specs.Causes.{Ok};
ghost use Rattle.rules.specs.Queries.{answered, group_numbers, is_empty, live_entries};
ghost use Rattle.pipe_log.specs.Rows.{queue_at};
ghost use Rattle.contexts.specs.Contexts.{context_of, Wf};
ghost use Rattle.galdnyrr.specs.Asked.{NumbersTold};

use crate::answers::tell_count;
use contexts::Area;
use pipe_log::LogQueue;

// Whether there are no groups.
#[unsafe(no_mangle)]
pub extern "C" fn galdnyrr_is_empty(xs: &[u64], bs: &[u8]) -> bool
    requires { Wf xs.now bs.now }
    ensures { result ≡ is_empty (context_of xs.now bs.now) }
{
    queries::is_empty(&Area { xs, bs })
}

// The numbers of all groups, ascending.
#[unsafe(no_mangle)]
pub extern "C" fn galdnyrr_group_numbers(
    xs: &[u64],
    bs: &[u8],
    list: &mut [u64],
    count: &mut u64,
) -> u64
    requires { Wf xs.now bs.now }
    ensures { NumbersTold (answered list.old (Ok (group_numbers (context_of xs.now bs.now)))) list.old count.old result count.new list.new }
{
    let fetched = queries::group_numbers(&Area { xs, bs }, list);
    tell_count(fetched, count)
}

// The live count of a queue: the entries and keys of all groups but adopted ones.
#[unsafe(no_mangle)]
pub extern "C" fn galdnyrr_live_entries(xs: &[u64], bs: &[u8], queue: u64) -> usize
    requires { Wf xs.now bs.now }
    ensures { result ≡ live_entries (queue_at queue) (context_of xs.now bs.now) }
{
    queries::live_entries(&Area { xs, bs }, LogQueue::from(queue))
}
