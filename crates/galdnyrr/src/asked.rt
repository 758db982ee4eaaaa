// What is asked of a group's entries, for C and Rust.
#![tactic(auto, using(crate::proofs::AskedLaws::value_same, crate::proofs::AskedLaws::found_same, crate::proofs::AskedLaws::entry_same, crate::proofs::AskedLaws::flag_same))]

ghost use Rattle.std.specs.Prelude.{length};
ghost use Rattle.rules.specs.Causes.{Ok};
ghost use Rattle.rules.specs.Table.{first_index_of, last_index};
ghost use Rattle.rules.specs.TableQueries.{get_entry, rewrite_count, has_at_least_some_entries_before};
ghost use Rattle.rules.specs.Queries.{in_group};
ghost use Rattle.contexts.specs.Contexts.{context_of, Wf};
ghost use Rattle.galdnyrr.specs.Asked.{flagged, FoundTold, ValueTold, EntryTold};

use crate::answers::{tell_count, tell_entry, tell_found, tell_some_before};
use contexts::Area;

// The index of a group's first entry.
#[unsafe(no_mangle)]
pub extern "C" fn galdnyrr_first_index(xs: &[u64], bs: &[u8], group: u64, value: &mut u64) -> u64
    requires { Wf xs.now bs.now }
    ensures { FoundTold (in_group group (λ t. Ok (first_index_of t.entries)) (context_of xs.now bs.now)) value.old result value.new }
{
    let found = queries::first_index(&Area { xs, bs }, group);
    tell_found(found, value)
}

// The index of a group's last entry.
#[unsafe(no_mangle)]
pub extern "C" fn galdnyrr_last_index(xs: &[u64], bs: &[u8], group: u64, value: &mut u64) -> u64
    requires { Wf xs.now bs.now }
    ensures { FoundTold (in_group group (λ t. Ok (last_index t.entries)) (context_of xs.now bs.now)) value.old result value.new }
{
    let found = queries::last_index(&Area { xs, bs }, group);
    tell_found(found, value)
}

// The number of a group's Rewrite entries.
#[unsafe(no_mangle)]
pub extern "C" fn galdnyrr_rewrite_count(xs: &[u64], bs: &[u8], group: u64, value: &mut u64) -> u64
    requires { Wf xs.now bs.now }
    ensures { ValueTold (in_group group (λ t. Ok (rewrite_count t)) (context_of xs.now bs.now)) value.old result value.new }
{
    let counted = queries::rewrite_count(&Area { xs, bs }, group);
    tell_count(counted, value)
}

// The number of a group's entries.
#[unsafe(no_mangle)]
pub extern "C" fn galdnyrr_entry_count(xs: &[u64], bs: &[u8], group: u64, value: &mut u64) -> u64
    requires { Wf xs.now bs.now }
    ensures { ValueTold (in_group group (λ t. Ok (length t.entries)) (context_of xs.now bs.now)) value.old result value.new }
{
    let counted = queries::entry_count(&Area { xs, bs }, group);
    tell_count(counted, value)
}

// The record at an index of a group, if it is held.
#[unsafe(no_mangle)]
pub extern "C" fn galdnyrr_get_entry(
    xs: &[u64],
    bs: &[u8],
    group: u64,
    index: u64,
    row: &mut [u64],
) -> u64
    requires { Wf xs.now bs.now }
    ensures { EntryTold (in_group group (λ t. Ok (get_entry index t)) (context_of xs.now bs.now)) row.old result row.new }
{
    let found = queries::get_entry(&Area { xs, bs }, group, index);
    tell_entry(found, row)
}

// Whether a group's entry at place `count` − 1 has a sequence number up to the gate's.
#[unsafe(no_mangle)]
pub extern "C" fn galdnyrr_has_at_least_some_entries_before(
    xs: &[u64],
    bs: &[u8],
    group: u64,
    gate: u64,
    count: usize,
    value: &mut u64,
) -> u64
    requires { Wf xs.now bs.now }
    ensures { ValueTold (flagged (in_group group (has_at_least_some_entries_before gate count) (context_of xs.now bs.now))) value.old result value.new }
{
    let answer = queries::has_at_least_some_entries_before(&Area { xs, bs }, group, gate, count);
    tell_some_before(answer, value)
}
