// What a change may write besides the header: rows of entries from a row on, and keys.
ghost use Rattle.std.specs.Prelude.{◌≡◌, ◌+◌, ◌≤◌, ◌^◌};
ghost use Rattle.stretch.specs.Reach.{kept_before, row_from, writes_keys};

use crate::{Change, MAX_ENTRIES};
use memtable::Head;

// How many entries stay before rows that start at `first`; where they leave a gap, none.
#[tactic(auto, unfolding(crate::specs::Reach::kept_before))]
fn kept_before(head: Head, first: u64) -> usize
    requires { head.first_index + head.len ≤ 2 ^ 63 }
    ensures { result ≡ kept_before head first }
{
    let start = head.first_index;
    let end = start + (head.len as u64);
    if end < first {
        return 0;
    }
    first.saturating_sub(start) as usize
}

// The row from which on a change may write entries.
#[tactic(auto, unfolding(crate::specs::Reach::row_from))]
pub fn row_from(head: Head, change: Change) -> usize
    requires { head.first_index + head.len ≤ 2 ^ 63 }
    ensures { result ≡ row_from change head }
{
    match change {
        Change::Append { first, live: _ } => kept_before(head, first),
        Change::ReplayRewrite { first } => kept_before(head, first),
        Change::Rewrite { first, gate: _ } => first.saturating_sub(head.first_index) as usize,
        Change::Compact { index: _ } => 0,
        Change::Put { queue: _, seq: _ } => MAX_ENTRIES,
        Change::Delete => MAX_ENTRIES,
        Change::RewriteKey { gate: _, seq: _ } => MAX_ENTRIES,
        Change::Make => MAX_ENTRIES,
    }
}

// Whether a change may write keys.
#[tactic(auto, unfolding(crate::specs::Reach::writes_keys))]
pub fn writes_keys(change: Change) -> bool
    ensures { result ≡ writes_keys change }
{
    match change {
        Change::Append { first: _, live: _ } => false,
        Change::ReplayRewrite { first: _ } => false,
        Change::Rewrite { first: _, gate: _ } => false,
        Change::Compact { index: _ } => false,
        Change::Put { queue: _, seq: _ } => true,
        Change::Delete => true,
        Change::RewriteKey { gate: _, seq: _ } => true,
        Change::Make => false,
    }
}
