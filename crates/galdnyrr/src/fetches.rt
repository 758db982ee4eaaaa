// Fetches of a group's records into lent slices, one for each field, for C and Rust. The lent list is as long as the shortest of them.
#![tactic(auto, using(crate::proofs::AskedLaws::entries_told, crate::proofs::AskedLaws::fetch_told))]

ghost use Rattle.rules.specs.Causes.{Ok};
ghost use Rattle.rules.specs.TableQueries.{fetch_entries_to, fetch_entry_indexes_before, fetch_rewritten_entry_indexes};
ghost use Rattle.rules.specs.Queries.{in_group};
ghost use Rattle.memtable.specs.Columns.{columns};
ghost use Rattle.contexts.specs.Contexts.{context_of, Wf};
ghost use Rattle.galdnyrr.specs.Told.{gate_or};
ghost use Rattle.galdnyrr.specs.Asked.{EntriesTold};

use crate::answers::tell_count;
use crate::numbers::gate_of;
use contexts::Area;

// Fetches a group's entries with indexes in [begin, end), up to a size.
#[unsafe(no_mangle)]
pub extern "C" fn galdnyrr_fetch_entries_to(
    xs: &[u64],
    bs: &[u8],
    group: u64,
    begin: u64,
    end: u64,
    sized: bool,
    max_size: u64,
    index: &mut [u64],
    queue: &mut [u64],
    seq: &mut [u64],
    offset: &mut [u64],
    len: &mut [u64],
    compression: &mut [u64],
    entry_offset: &mut [u64],
    entry_len: &mut [u64],
    count: &mut u64,
) -> u64
    requires { Wf xs.now bs.now }
    ensures { EntriesTold (in_group group (fetch_entries_to begin end (gate_or sized max_size)) (context_of xs.now bs.now)) (columns index.old queue.old seq.old offset.old len.old compression.old entry_offset.old entry_len.old) count.old result count.new (columns index.new queue.new seq.new offset.new len.new compression.new entry_offset.new entry_len.new) }
{
    let fetched = columns::fetch_entries_to(
        &Area { xs, bs },
        group,
        begin,
        end,
        gate_of(sized, max_size),
        index,
        queue,
        seq,
        offset,
        len,
        compression,
        entry_offset,
        entry_len,
    );
    tell_count(fetched, count)
}

// Fetches a group's Append entries from the front while their file is at most the gate.
#[unsafe(no_mangle)]
pub extern "C" fn galdnyrr_fetch_entry_indexes_before(
    xs: &[u64],
    bs: &[u8],
    group: u64,
    gate: u64,
    index: &mut [u64],
    queue: &mut [u64],
    seq: &mut [u64],
    offset: &mut [u64],
    len: &mut [u64],
    compression: &mut [u64],
    entry_offset: &mut [u64],
    entry_len: &mut [u64],
    count: &mut u64,
) -> u64
    requires { Wf xs.now bs.now }
    ensures { EntriesTold (in_group group (λ t. Ok (fetch_entry_indexes_before gate t)) (context_of xs.now bs.now)) (columns index.old queue.old seq.old offset.old len.old compression.old entry_offset.old entry_len.old) count.old result count.new (columns index.new queue.new seq.new offset.new len.new compression.new entry_offset.new entry_len.new) }
{
    let fetched = columns::fetch_entry_indexes_before(
        &Area { xs, bs },
        group,
        gate,
        index,
        queue,
        seq,
        offset,
        len,
        compression,
        entry_offset,
        entry_len,
    );
    tell_count(fetched, count)
}

// Fetches all Rewrite entries of a group.
#[unsafe(no_mangle)]
pub extern "C" fn galdnyrr_fetch_rewritten_entry_indexes(
    xs: &[u64],
    bs: &[u8],
    group: u64,
    index: &mut [u64],
    queue: &mut [u64],
    seq: &mut [u64],
    offset: &mut [u64],
    len: &mut [u64],
    compression: &mut [u64],
    entry_offset: &mut [u64],
    entry_len: &mut [u64],
    count: &mut u64,
) -> u64
    requires { Wf xs.now bs.now }
    ensures { EntriesTold (in_group group (λ t. Ok (fetch_rewritten_entry_indexes t)) (context_of xs.now bs.now)) (columns index.old queue.old seq.old offset.old len.old compression.old entry_offset.old entry_len.old) count.old result count.new (columns index.new queue.new seq.new offset.new len.new compression.new entry_offset.new entry_len.new) }
{
    let fetched = columns::fetch_rewritten_entry_indexes(
        &Area { xs, bs },
        group,
        index,
        queue,
        seq,
        offset,
        len,
        compression,
        entry_offset,
        entry_len,
    );
    tell_count(fetched, count)
}
