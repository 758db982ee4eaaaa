// Changes of a group's entries, each by the head's own method on the rows of the stretch before `keys_at`. They see no bytes.
#![tactic(auto, unfolding(crate::specs::Stretch::entry_rows_at, cells::specs::Part::part))]

ghost use Rattle.std.specs.Prelude.{List, ◌≡◌, ℕ, ◌-◌, ◌/◌, ◌≤◌, length};
ghost use Rattle.pipe_log.specs.Rows.{window};
ghost use Rattle.rules.specs.Causes.{Ok};
ghost use Rattle.rules.specs.Table.{appended, replayed_rewrite, rewritten, compacted};
ghost use Rattle.memtable.specs.Appends.{Lent};
ghost use Rattle.stretch.specs.Stretch.{head_part, NumbersAt, WfAt};
ghost use Rattle.stretch.specs.Changes.{ChangedAt, laid_outcome, laid_numbers};
ghost use Rattle.stretch.specs.Reach.{kept_before, LeavesRows};

use crate::ENTRIES_AT;
use crate::header::{head_in, write_head};
use memtable::Head;
use pipe_log::Cause;

// Writes the head that a change gives, or answers the refusal.
fn settle(p: &mut [u64], answer: Result<Head, Cause>) -> Result<(), Cause>
    requires { 10 ≤ length p.old }
    ensures { (result ≡ laid_outcome answer) × (p.new ≡ laid_numbers answer p.old) }
{
    write_head(p, answer?);
    Ok(())
}

// Appends entries of the Append queue, live or replayed.
pub fn append(
    p: &mut [u64],
    keys_at: usize,
    first: u64,
    rows: &[u64],
    live: bool,
) -> Result<(), Cause>
    requires numbers_at { NumbersAt keys_at p.old }
    requires lent { Lent 0 first rows.now }
    ensures by_index { (b : List ℕ) → WfAt keys_at p.old b → ChangedAt keys_at (appended live (window first (length rows.now / 8) rows.now)) p.old b result p.new b }
    ensures leaves_rows { LeavesRows keys_at (kept_before (head_part p.old) first) p.old p.new }
{
    let head = head_in(p);
    let a = ENTRIES_AT;
    let answer = head.append(&mut p[a..keys_at], first, rows, live);
    settle(p, answer)
}

// Replays entries of the Rewrite queue on a group that has no others.
pub fn replay_rewrite(p: &mut [u64], keys_at: usize, first: u64, rows: &[u64]) -> Result<(), Cause>
    requires numbers_at { NumbersAt keys_at p.old }
    requires lent { Lent 1 first rows.now }
    requires p_bound { (head_part p.old).len ≤ (head_part p.old).rewrite_count }
    ensures by_index { (b : List ℕ) → WfAt keys_at p.old b → ChangedAt keys_at (λ t. Ok (replayed_rewrite (window first (length rows.now / 8) rows.now) t)) p.old b result p.new b }
    ensures leaves_rows { LeavesRows keys_at (kept_before (head_part p.old) first) p.old p.new }
{
    let head = head_in(p);
    let a = ENTRIES_AT;
    let answer = head.replay_rewrite(&mut p[a..keys_at], first, rows);
    settle(p, answer)
}

// Lays entries of the Append queue over those of the group, a gap dropping all: the join.
pub fn join(p: &mut [u64], keys_at: usize, first: u64, rows: &[u64]) -> Result<(), Cause>
    requires numbers_at { NumbersAt keys_at p.old }
    requires lent { Lent 0 first rows.now }
    ensures { (b : List ℕ) → WfAt keys_at p.old b → ChangedAt keys_at (λ t. Ok (replayed_rewrite (window first (length rows.now / 8) rows.now) t)) p.old b result p.new b }
{
    let head = head_in(p);
    let a = ENTRIES_AT;
    let answer = head.merge_append_table(&mut p[a..keys_at], first, rows);
    settle(p, answer)
}

// Rewrites entries where the rows overlap them.
pub fn rewrite(
    p: &mut [u64],
    keys_at: usize,
    first: u64,
    rows: &[u64],
    gate: Option<u64>,
) -> Result<(), Cause>
    requires numbers_at { NumbersAt keys_at p.old }
    requires lent { Lent 1 first rows.now }
    ensures by_index { (b : List ℕ) → WfAt keys_at p.old b → ChangedAt keys_at (rewritten gate (window first (length rows.now / 8) rows.now)) p.old b result p.new b }
    ensures leaves_rows { LeavesRows keys_at (first - (head_part p.old).first_index) p.old p.new }
{
    let head = head_in(p);
    let a = ENTRIES_AT;
    let answer = head.rewrite(&mut p[a..keys_at], first, rows, gate);
    settle(p, answer)
}

// Drops the entries below an index.
pub fn compact(p: &mut [u64], keys_at: usize, index: u64) -> Result<(), Cause>
    requires { NumbersAt keys_at p.old }
    ensures by_index { (b : List ℕ) → WfAt keys_at p.old b → ChangedAt keys_at (λ t. Ok (compacted index t)) p.old b result p.new b }
    ensures leaves_rows { LeavesRows keys_at 0 p.old p.new }
{
    let head = head_in(p);
    let a = ENTRIES_AT;
    let answer = head.compact_to(&mut p[a..keys_at], index);
    let next = answer.head;
    write_head(p, next);
    Ok(())
}
