// What becomes of one group, worked in the long stretch: the older table, a part that finishes and the newer tombstones on it, the newer
// table over it.
ghost use Rattle.std.specs.Prelude.{true, ◌≡◌, ◌≤◌, ◌<◌, length};
ghost use Rattle.std.specs.Prelude.{None};
ghost use Rattle.maps.specs.Maps.{lookup, numbers};
ghost use Rattle.rules_by_group.specs.Group.{tombed};
ghost use Rattle.rules_by_group.specs.Kept.{Within};
ghost use Rattle.stretch.specs.Stretch.{is_used, table_in};
ghost use Rattle.stretch.specs.Stretch as held;
ghost use Rattle.groups.specs.Area.{stretch_at, bytes_at, groups_of};
ghost use Rattle.worktable.specs.Work.{work_in, Wf};
ghost use Rattle.worktable.specs.Calls.{Becomes, Ends, laid_over, Layable, OlderFor};
ghost use Rattle.contexts.specs.Contexts.{context_of};
ghost use Rattle.contexts.specs.Contexts as contexts·areas;
ghost use Rattle.staging.specs.Modes.{newer_kind, group_by, Given};
ghost use Rattle.staging.specs.Works.{laid_by, Loaded, WorkedAs};

use crate::finishes::finish_part;
use crate::tombs::bury;
use groups::Slot;
use log_batch::LogBatch;
use pipe_log::Cause;
use stores::{LentStore, Store};
use stretch::{BYTES, STRETCH};
use worktable::{Mode, WORK_AT, WORK_BYTES_AT};

// Makes the work table absent.
#[tactic(auto, using(crate::proofs::WorkWays::long_bytes_length, crate::proofs::WorkWays::cleared_loaded))]
fn clear_long(xs: &mut [u64])
    requires { length xs.old ≡ 17231 }
    ensures { (bs : _) → length bs ≡ 38912 → Loaded None xs.old bs xs.new bs }
{
    worktable::clear(&mut xs[WORK_AT..]);
}

// Makes the work table the older one of a group, or absent.
#[tactic(auto, using(contexts::proofs::Lengths::area_numbers))]
fn load_older(xs: &mut [u64], bs: &mut [u8], group: u64)
    requires { contexts·areas.Wf xs.old bs.old }
    ensures { Loaded (lookup numbers group (groups_of xs.old bs.old)) xs.old bs.old xs.new bs.new }
{
    match groups::find(xs, group) {
        Slot::At(k) => worktable::load(xs, bs, k),
        Slot::Free(_) | Slot::Full => clear_long(xs),
    }
}

// Carries out the newer tombstones of a group.
fn bury_newer(p: &mut [u64], b: &mut [u8], ys: &[u64], cs: &[u8], group: u64)
    requires wf { Wf p.old b.old }
    requires within { Within 320 144 (work_in p.old b.old) }
    requires wf_2 { contexts·areas.Wf ys.now cs.now }
    ensures { Becomes (tombed group (context_of ys.now cs.now).tombstones (work_in p.old b.old)) p.new b.new }
{
    let rows = &ys[groups::NUMBERS + lists::ROWS_FROM..groups::NUMBERS + lists::ROWS_TO];
    let bytes = &cs[groups::BYTES..groups::BYTES + lists::ROW_BYTES];
    let counts = Store {
        items: ys[groups::NUMBERS + lists::TOMBSTONES_AT] as usize,
        entries: 0,
    };
    let parts = LogBatch {
        items: rows,
        entries: &[],
        bytes,
    };
    bury(p, b, group, &LentStore { counts, parts });
}

// Lays stretch k of the newer area over the work table.
#[tactic(auto, using(crate::proofs::WorkWays::lent_stretch, crate::proofs::WorkWays::lent_bytes))]
fn lay_at(
    p: &mut [u64],
    b: &mut [u8],
    ys: &[u64],
    cs: &[u8],
    k: usize,
    mode: Mode,
) -> Result<(), Cause>
    requires wf { Wf p.old b.old }
    requires k_bound { (k < 8) × (9376 ≤ length ys.now) × (16384 ≤ length cs.now) }
    requires wf_2 { held.Wf (stretch_at k ys.now) (bytes_at k cs.now) × (is_used (stretch_at k ys.now) ≡ true) }
    requires layable { Layable mode (table_in (stretch_at k ys.now) (bytes_at k cs.now)) (work_in p.old b.old) }
    ensures { Ends (laid_over mode (table_in (stretch_at k ys.now) (bytes_at k cs.now)) (work_in p.old b.old)) result p.new b.new }
{
    worktable::lay_over(
        p,
        b,
        &ys[k * STRETCH..(k + 1) * STRETCH],
        &cs[k * BYTES..(k + 1) * BYTES],
        mode,
    )
}

// Lays the newer table of a group, if there is one, over the work table.
#[tactic(auto, using(crate::proofs::WorkWays::newer_laid))]
fn lay_newer(
    p: &mut [u64],
    b: &mut [u8],
    ys: &[u64],
    cs: &[u8],
    group: u64,
    mode: Mode,
) -> Result<(), Cause>
    requires wf { Wf p.old b.old }
    requires within { Within 320 144 (work_in p.old b.old) × OlderFor mode (work_in p.old b.old) }
    requires wf_2 { contexts·areas.Wf ys.now cs.now }
    requires cs_value { (context_of ys.now cs.now).kind ≡ newer_kind mode }
    ensures { Ends (laid_by mode (lookup numbers group (groups_of ys.now cs.now)) (work_in p.old b.old)) result p.new b.new }
{
    match groups::find(ys, group) {
        Slot::At(k) => lay_at(p, b, ys, cs, k, mode),
        Slot::Free(_) | Slot::Full => Ok(()),
    }
}

// Works on what was loaded: the newer tombstones, then the newer table.
#[tactic(auto, using(crate::proofs::WorkWays::buried_laid))]
fn work_loaded(
    p: &mut [u64],
    b: &mut [u8],
    ys: &[u64],
    cs: &[u8],
    group: u64,
    mode: Mode,
) -> Result<(), Cause>
    requires wf { Wf p.old b.old }
    requires within { Within 320 144 (work_in p.old b.old) }
    requires older_for { OlderFor mode (tombed group (context_of ys.now cs.now).tombstones (work_in p.old b.old)) }
    requires wf_2 { contexts·areas.Wf ys.now cs.now }
    requires cs_value { (context_of ys.now cs.now).kind ≡ newer_kind mode }
    ensures { Ends (laid_by mode (lookup numbers group (groups_of ys.now cs.now)) (tombed group (context_of ys.now cs.now).tombstones (work_in p.old b.old))) result p.new b.new }
{
    bury_newer(p, b, ys, cs, group);
    lay_newer(p, b, ys, cs, group, mode)
}

// Works group `group` of the merge or join.
pub fn work(
    xs: &mut [u64],
    bs: &mut [u8],
    ys: &[u64],
    cs: &[u8],
    group: u64,
    mode: Mode,
) -> Result<(), Cause>
    requires { Given mode xs.old bs.old ys.now cs.now }
    ensures { WorkedAs (group_by mode (context_of ys.now cs.now) (context_of xs.old bs.old) group) xs.old bs.old result xs.new bs.new }
{
    load_older(xs, bs, group);
    finish_part(xs, bs, ys, cs, group)?;
    work_loaded(
        &mut xs[WORK_AT..],
        &mut bs[WORK_BYTES_AT..],
        ys,
        cs,
        group,
        mode,
    )
}
