// Fetches of a group's records into a lent list of rows of eight numbers, for C and Rust.
#![tactic(auto, using(crate::proofs::AskedLaws::rows_told, crate::proofs::AskedLaws::rows_to_told))]

ghost use Rattle.rules.specs.Causes.{Ok};
ghost use Rattle.rules.specs.TableQueries.{fetch_entries_to, fetch_entry_indexes_before, fetch_rewritten_entry_indexes};
ghost use Rattle.rules.specs.Queries.{in_group};
ghost use Rattle.contexts.specs.Contexts.{context_of, Wf};
ghost use Rattle.galdnyrr.specs.Told.{gate_or};
ghost use Rattle.galdnyrr.specs.Asked.{RowsTold};

use crate::answers::tell_count;
use crate::numbers::gate_of;
use contexts::Area;

// Fetches a group's entries with indexes in [begin, end), up to a size.
#[unsafe(no_mangle)]
pub extern "C" fn galdnyrr_fetch_records_to(
    xs: &[u64],
    bs: &[u8],
    group: u64,
    begin: u64,
    end: u64,
    sized: bool,
    max_size: u64,
    out: &mut [u64],
    count: &mut u64,
) -> u64
    requires { Wf xs.now bs.now }
    ensures { RowsTold (in_group group (fetch_entries_to begin end (gate_or sized max_size)) (context_of xs.now bs.now)) out.old count.old result count.new out.new }
{
    let fetched = records::fetch_rows_to(
        &Area { xs, bs },
        group,
        begin,
        end,
        gate_of(sized, max_size),
        out,
    );
    tell_count(fetched, count)
}

// Fetches a group's Append entries from the front while their file is at most the gate.
#[unsafe(no_mangle)]
pub extern "C" fn galdnyrr_fetch_records_before(
    xs: &[u64],
    bs: &[u8],
    group: u64,
    gate: u64,
    out: &mut [u64],
    count: &mut u64,
) -> u64
    requires { Wf xs.now bs.now }
    ensures { RowsTold (in_group group (λ t. Ok (fetch_entry_indexes_before gate t)) (context_of xs.now bs.now)) out.old count.old result count.new out.new }
{
    let fetched = records::fetch_rows_before(&Area { xs, bs }, group, gate, out);
    tell_count(fetched, count)
}

// Fetches all Rewrite entries of a group.
#[unsafe(no_mangle)]
pub extern "C" fn galdnyrr_fetch_rewritten_records(
    xs: &[u64],
    bs: &[u8],
    group: u64,
    out: &mut [u64],
    count: &mut u64,
) -> u64
    requires { Wf xs.now bs.now }
    ensures { RowsTold (in_group group (λ t. Ok (fetch_rewritten_entry_indexes t)) (context_of xs.now bs.now)) out.old count.old result count.new out.new }
{
    let fetched = records::fetch_rewritten_rows(&Area { xs, bs }, group, out);
    tell_count(fetched, count)
}
