// One change of a group's stretch.
ghost use Rattle.stretch.specs.Stretch.{head_part, table_at, WfAt};
ghost use Rattle.stretch.specs.Changes.{rule_of, Ready, ChangedAt};
ghost use Rattle.stretch.specs.Reach.{row_from, writes_keys, LeavesAt};

use crate::{Change, entries, keys};
use pipe_log::Cause;

// Carries out a change on a group's stretch p with its bytes b. The rows of keys begin at place `keys_at`.
#[tactic(auto, unfolding(crate::specs::Changes::Ready, crate::specs::Changes::rule_of, crate::specs::Reach::row_from, crate::specs::Reach::writes_keys))]
pub fn apply(
    p: &mut [u64],
    b: &mut [u8],
    keys_at: usize,
    change: Change,
    rows: &[u64],
    key: &[u8],
    value: &[u8],
) -> Result<(), Cause>
    requires wf_at { WfAt keys_at p.old b.old }
    requires ready { Ready change rows.now key.now value.now (table_at keys_at p.old b.old) }
    ensures changed_at { ChangedAt keys_at (rule_of change rows.now key.now value.now) p.old b.old result p.new b.new }
    ensures leaves_at { LeavesAt keys_at (row_from change (head_part p.old)) (writes_keys change) p.old b.old p.new b.new }
{
    match change {
        Change::Append { first, live } => entries::append(p, keys_at, first, rows, live),
        Change::ReplayRewrite { first } => entries::replay_rewrite(p, keys_at, first, rows),
        Change::Rewrite { first, gate } => entries::rewrite(p, keys_at, first, rows, gate),
        Change::Compact { index } => entries::compact(p, keys_at, index),
        Change::Put { queue, seq } => keys::put(p, b, keys_at, key, value, queue, seq),
        Change::Delete => keys::delete(p, b, keys_at, key),
        Change::RewriteKey { gate, seq } => keys::rewrite_key(p, b, keys_at, key, gate, seq),
        Change::Make => Ok(()),
    }
}
