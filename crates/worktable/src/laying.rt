// A newer group's table laid over the work table: its entries as one replayed list, its keys, its span.
ghost use Rattle.std.specs.Prelude.{true, false, List, ◌≡◌, ℕ, ◌*◌, ◌≤◌, length};
ghost use Rattle.std.specs.Prelude.{Some};
ghost use Rattle.cells.specs.Part.{part};
ghost use Rattle.rules.specs.Table.{made, uncounted};
ghost use Rattle.stretch.specs.Stretch.{is_used, head_part, NumbersAt, WfAt, table_at, table_in, NumbersWf};
ghost use Rattle.stretch.specs.Stretch as held;
ghost use Rattle.stretch.specs.Changes.{ChangedAt};
ghost use Rattle.worktable.specs.Work.{long_keys_at, work_in, Wf, Stands};
ghost use Rattle.worktable.specs.Calls.{Becomes, Ends, AllOf, newer_queue, laid_over, Layable, entries_held, HeadFor, entries_over, span_laid, table_over, TableEnds};

use crate::acts::provide;
use crate::{KEYS_AT, Mode};
use kvs::rows::{ROW_BYTES, ROW_WIDTH};
use pipe_log::{Cause, ENTRY_WIDTH, Span};
use stretch::{COUNTED, ENTRIES_AT, ENTRY_COUNT, KEY_COUNT};

// The rows of entries in use of a group's stretch.
#[tactic(auto, using(crate::proofs::LayWays::width), unfolding(cells::specs::Part::part))]
fn rows_of(q: &[u64], count: usize) -> &[u64]
    requires { (length q.now ≡ 586) × (count ≤ 64) }
    ensures { result.now ≡ part 10 (count * 8) q.now }
{
    let a = ENTRIES_AT;
    let e = a + count * ENTRY_WIDTH;
    &q[a..e]
}

// Lays the entries of a newer group's stretch over those of the table.
fn lay_entries(p: &mut [u64], q: &[u64], mode: Mode) -> Result<(), Cause>
    requires numbers_at { NumbersAt 3082 p.old }
    requires numbers_wf { NumbersWf q.now }
    requires all_of { AllOf (newer_queue mode) (entries_held q.now) }
    requires head_for { HeadFor mode (head_part p.old) }
    ensures { (b : List ℕ) → WfAt 3082 p.old b → ChangedAt 3082 (entries_over mode (entries_held q.now)) p.old b result p.new b }
{
    let head = stretch::head_in(q);
    let first = head.first_index;
    let count = head.len;
    let rows = rows_of(q, count);
    match mode {
        Mode::Append => stretch::append(p, KEYS_AT, first, rows, false),
        Mode::Rewrite => stretch::replay_rewrite(p, KEYS_AT, first, rows),
        Mode::Join => stretch::join(p, KEYS_AT, first, rows),
    }
}

// Lays a newer table's span over that of the table: a merge of Append tables replaces it, one of Rewrite tables sets it, and the join
// leaves it.
#[tactic(auto, using(stretch::specs::Laws::unchanged, crate::proofs::LayWays::span_none), unfolding(crate::specs::Calls::span_laid, rules_by_group::specs::Group::span_over, rules_by_group::specs::Group::spanned_by))]
fn lay_span(p: &mut [u64], span: Option<Span>, mode: Mode) -> Result<(), Cause>
    requires { 10 ≤ length p.old }
    ensures { (b : List ℕ) → WfAt 3082 p.old b → ChangedAt 3082 (span_laid mode span) p.old b result p.new b }
{
    let Some(Span { start, end }) = span else {
        return Ok(());
    };
    match mode {
        Mode::Append => {
            stretch::write_span(p, Some(Span { start, end }));
            Ok(())
        }
        Mode::Rewrite => stretch::set_span(p, start, end),
        Mode::Join => Ok(()),
    }
}

// Lays a newer group's stretch over the table that is there.
#[tactic(auto, using(crate::specs::LayLaws::head_for, crate::proofs::LayWays::newer_few, crate::proofs::LayWays::lay_done), unfolding(memtable::specs::Views::table_of, stretch::specs::Stretch::table_at, stretch::specs::Stretch::table_in))]
fn lay_table(p: &mut [u64], b: &mut [u8], q: &[u64], d: &[u8], mode: Mode) -> Result<(), Cause>
    requires stands { Stands (table_at long_keys_at p.old b.old) p.old b.old }
    requires wf { held.Wf q.now d.now }
    requires layable { Layable mode (table_in q.now d.now) (Some (table_at long_keys_at p.old b.old)) }
    ensures { TableEnds (table_over mode (table_in q.now d.now) (table_at long_keys_at p.old b.old)) result p.new b.new }
{
    lay_entries(p, q, mode)?;
    // a long stretch has room for the keys of two tables
    let _ = stretch::lay_keys(p, b, KEYS_AT, q, d);
    let head = stretch::head_in(q);
    let span = head.atomic_group;
    lay_span(p, span, mode)
}

// Makes the table a newer group's, which the live counts leave out.
#[tactic(auto, using(crate::proofs::LayWays::header_few, crate::proofs::LayWays::lent_short))]
fn adopt(p: &mut [u64], b: &mut [u8], q: &[u64], d: &[u8])
    requires p_len { (length p.old ≡ 3722) × (length b.old ≡ 10240) }
    requires wf { held.Wf q.now d.now × (is_used q.now ≡ true) }
    ensures { Becomes (Some (uncounted (table_in q.now d.now))) p.new b.new }
{
    let entries = q[ENTRY_COUNT] as usize;
    let keys = q[KEY_COUNT] as usize;
    let start = 0;
    let e = ENTRIES_AT + entries * ENTRY_WIDTH;
    cells::copy_in(p, 0, &q[start..e]);
    let a = stretch::KEYS_AT;
    let z = a + keys * ROW_WIDTH;
    cells::copy_in(p, KEYS_AT, &q[a..z]);
    let n = keys * ROW_BYTES;
    cells::copy_in(b, 0, &d[start..n]);
    p[COUNTED] = 0;
}

// Lays a newer group's stretch over the table, which is made if it is absent.
fn lay_made(p: &mut [u64], b: &mut [u8], q: &[u64], d: &[u8], mode: Mode) -> Result<(), Cause>
    requires wf { Wf p.old b.old }
    requires wf_2 { held.Wf q.now d.now }
    requires layable { Layable mode (table_in q.now d.now) (work_in p.old b.old) }
    ensures { TableEnds (table_over mode (table_in q.now d.now) (made (work_in p.old b.old))) result p.new b.new }
{
    provide(p);
    lay_table(p, b, q, d, mode)
}

// Lays a newer group's stretch q, with its bytes d, over the table; the join adopts it if there is none.
pub fn lay_over(p: &mut [u64], b: &mut [u8], q: &[u64], d: &[u8], mode: Mode) -> Result<(), Cause>
    requires wf { Wf p.old b.old }
    requires wf_2 { held.Wf q.now d.now × (is_used q.now ≡ true) }
    requires layable { Layable mode (table_in q.now d.now) (work_in p.old b.old) }
    ensures { Ends (laid_over mode (table_in q.now d.now) (work_in p.old b.old)) result p.new b.new }
{
    if p[0] == 1 {
        return lay_made(p, b, q, d, mode);
    }
    match mode {
        Mode::Append => lay_made(p, b, q, d, Mode::Append),
        Mode::Rewrite => lay_made(p, b, q, d, Mode::Rewrite),
        Mode::Join => {
            adopt(p, b, q, d);
            Ok(())
        }
    }
}
