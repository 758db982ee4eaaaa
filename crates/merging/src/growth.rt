// What the lists and the waiting parts become at the end of an accepted merge or join.
ghost use Rattle.std.specs.Prelude.{List, ◌≡◌, ℕ, ◌+◌, ◌≤◌, length, get_or, drop};
ghost use Rattle.rules_by_group.specs.Stage.{joined_rest};
ghost use Rattle.lists.specs.Rest.{Wf};
ghost use Rattle.contexts.specs.Contexts.{rest_at, context_of};
ghost use Rattle.staging.specs.Modes.{rest_by};
ghost use Rattle.merging.specs.Growth.{ListsBecome, merged_lists, joined_lists, Mergeable, Grown, Growable, RestBecomes};

use contexts::{WAITING_FROM, WAITING_TO};
use worktable::Mode;

// Adds the newer lists behind the older ones.
fn merge_lists(ys: &mut [u64], cs: &mut [u8], its_ys: &[u64], its_cs: &[u8])
    requires wf { Wf ys.old cs.old }
    requires wf_2 { Wf its_ys.now its_cs.now }
    requires its_ys_bound { (get_or ys.old 1 0 + get_or its_ys.now 1 0 ≤ 64) × (get_or ys.old 2 0 + get_or its_ys.now 2 0 ≤ 64) }
    ensures { ListsBecome (merged_lists ys.old cs.old its_ys.now its_cs.now) ys.old cs.old ys.new cs.new }
{
    lists::add_tombstones(ys, cs, its_ys, its_cs);
    lists::add_all_cleaned(ys, its_ys);
}

// Makes the lists those of the index, with the cleaned numbers of both.
#[tactic(auto, using(crate::proofs::JoinWays::lists_joined))]
fn join_lists(ys: &mut [u64], its_ys: &[u64])
    requires ys_len { (length ys.old ≡ 7855) × (length its_ys.now ≡ 7855) }
    requires its_ys_bound { get_or ys.old 2 0 + get_or its_ys.now 2 0 ≤ 64 }
    ensures by_index { (cs : List ℕ) → Wf ys.old cs → ListsBecome (joined_lists ys.old cs its_ys.now) ys.old cs ys.new cs }
    ensures ys_len_2 { length ys.new ≡ 7855 }
{
    lists::add_all_cleaned(ys, its_ys);
    lists::become_index(ys);
}

// The lists of an accepted merge.
pub fn grow_merged(xs: &mut [u64], bs: &mut [u8], ys: &[u64], cs: &[u8])
    requires { Mergeable xs.old bs.old ys.now cs.now }
    ensures { Grown (merged_lists (drop 9376 xs.old) (drop 16384 bs.old) (drop 9376 ys.now) (drop 16384 cs.now)) xs.old bs.old xs.new bs.new }
{
    merge_lists(
        &mut xs[groups::NUMBERS..],
        &mut bs[groups::BYTES..],
        &ys[groups::NUMBERS..],
        &cs[groups::BYTES..],
    );
}

// The lists of an accepted join, and nothing waits.
fn grow_joined(xs: &mut [u64], ys: &[u64])
    requires xs_len { (length xs.old ≡ 17231) × (length ys.now ≡ 17231) }
    requires ys_bound { get_or (drop 9376 xs.old) 2 0 + get_or (drop 9376 ys.now) 2 0 ≤ 64 }
    ensures { (bs cs : List ℕ) → Growable Mode.Join xs.old bs ys.now cs → RestBecomes (joined_rest (context_of ys.now cs) (rest_at xs.old bs)) xs.old bs xs.new bs }
{
    room::clear(&mut xs[WAITING_FROM..WAITING_TO], room::CELLS);
    join_lists(&mut xs[groups::NUMBERS..], &ys[groups::NUMBERS..]);
}

// What the lists and the waiting parts become.
pub fn grow(xs: &mut [u64], bs: &mut [u8], ys: &[u64], cs: &[u8], mode: Mode)
    requires { Growable mode xs.old bs.old ys.now cs.now }
    ensures { RestBecomes (rest_by mode (context_of ys.now cs.now) (rest_at xs.old bs.old)) xs.old bs.old xs.new bs.new }
{
    match mode {
        Mode::Append | Mode::Rewrite => grow_merged(xs, bs, ys, cs),
        Mode::Join => grow_joined(xs, ys),
    }
}
