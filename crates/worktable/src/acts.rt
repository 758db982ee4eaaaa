// What an item's deed does to the work table.
ghost use Rattle.std.specs.Prelude.{List, ◌≡◌, ℕ, length};
ghost use Rattle.std.specs.Prelude.{None};
ghost use Rattle.rules.specs.Causes.{left};
ghost use Rattle.rules.specs.Table.{made};
ghost use Rattle.worktable.specs.Work.{work_in, Wf, Stands};
ghost use Rattle.worktable.specs.Calls.{Becomes, deed_to, Taken};

use crate::KEYS_AT;
use deeds::Deed;
use stretch::Change;

// Makes the table absent.
pub fn clear(p: &mut [u64])
    requires { length p.old ≡ 3722 }
    ensures { (b : List ℕ) → length b ≡ 10240 → Becomes None p.new b }
{
    p[0] = 0;
}

// Makes the table, with nothing in it, if it is absent.
pub fn provide(p: &mut [u64])
    requires { length p.old ≡ 3722 }
    ensures { (b : List ℕ) → Wf p.old b → Stands (made (work_in p.old b)) p.new b }
{
    if p[0] == 1 {
        return;
    }
    stretch::make(p, 0);
}

// Carries out a change on the table, which is made if it is absent.
#[tactic(auto, unfolding(crate::specs::Calls::ReadyTo))]
fn change_table(p: &mut [u64], b: &mut [u8], change: Change, rows: &[u64], key: &[u8], value: &[u8])
    requires wf { Wf p.old b.old }
    requires taken { Taken (Deed.Change change) rows.now key.now value.now (work_in p.old b.old) }
    ensures { Becomes (left (work_in p.old b.old) (deed_to (Deed.Change change) rows.now key.now value.now (work_in p.old b.old))) p.new b.new }
{
    provide(p);
    // the caller has seen to it that nothing is refused
    let _ = stretch::apply(p, b, KEYS_AT, change, rows, key, value);
}

// Carries out a deed that is not refused, and whose result there is room for.
#[tactic(auto, using(crate::specs::WorkLaws::skipped), unfolding(crate::specs::Calls::deed_to, rules::specs::Causes::left))]
pub fn act(p: &mut [u64], b: &mut [u8], deed: Deed, rows: &[u64], key: &[u8], value: &[u8])
    requires wf { Wf p.old b.old }
    requires taken { Taken deed rows.now key.now value.now (work_in p.old b.old) }
    ensures { Becomes (left (work_in p.old b.old) (deed_to deed rows.now key.now value.now (work_in p.old b.old))) p.new b.new }
{
    match deed {
        Deed::Skip => {}
        Deed::Clean => clear(p),
        Deed::Change(change) => change_table(p, b, change, rows, key, value),
    }
}
