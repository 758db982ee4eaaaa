// The span of a group's head, in a stretch of any width.
ghost use Rattle.std.specs.Prelude.{List, ℕ, ◌≤◌, length};
ghost use Rattle.rules.specs.Causes.{Ok};
ghost use Rattle.rules.specs.Table.{spanned, with_span};
ghost use Rattle.stretch.specs.Stretch.{WfAt};
ghost use Rattle.stretch.specs.Changes.{ChangedAt};

use crate::header::{head_in, write_head};
use memtable::Head;
use pipe_log::{Cause, Span};

// Sets the span of a finished atomic group; files may not go back.
pub fn set_span(p: &mut [u64], start: u64, end: u64) -> Result<(), Cause>
    requires { 10 ≤ length p.old }
    ensures { (w : ℕ) (b : List ℕ) → WfAt w p.old b → ChangedAt w (spanned (record { start = start; end = end })) p.old b result p.new b }
{
    let head = head_in(p);
    let next = head.apply_rewrite_atomic_group(start, end)?;
    write_head(p, next);
    Ok(())
}

// Replaces the span.
pub fn write_span(p: &mut [u64], span: Option<Span>)
    requires { 10 ≤ length p.old }
    ensures { (w : ℕ) (b : List ℕ) → WfAt w p.old b → ChangedAt w (λ t. Ok (with_span span t)) p.old b (Ok tt) p.new b }
{
    let head = head_in(p);
    write_head(
        p,
        Head {
            atomic_group: span,
            ..head
        },
    );
}
