// What is printed at the end: a line for each group, and the live counts.
ghost use Rattle.std.specs.Prelude.{◌≡◌, ◌++◌, ◌≤◌, length};
ghost use Rattle.maps.specs.Maps as maps;
ghost use Rattle.rules.specs.Items.{Append, Rewrite};
ghost use Rattle.rules.specs.Queries.{group_numbers, live_entries};
ghost use Rattle.contexts.specs.Contexts.{context_of, Wf};
ghost use Rattle.takes_rules.specs.Output.{live_line};
ghost use Rattle.takes_rules.specs.Program.{groups_text};
ghost use Rattle.takes_runs.specs.Steps.{Says};
ghost use Rattle.takes_runs.specs.Totals.{group_text};

use crate::blocks::LINE_MOST;
use contexts::Area;
use groups::SLOTS;
use pipe_log::LogQueue;
use takes_lines::output::{group_line, live_line};

// The most bytes that a line of a group takes.
pub const GROUP_MOST: usize = 86;

// The most bytes that the lines of eight groups and of the live counts take.
pub const TOTALS_MOST: usize = SLOTS * GROUP_MOST + LINE_MOST;

// The line of a group; of an absent one all numbers are 0.
pub fn group_text(area: &Area, group: u64, out: &mut [u8]) -> usize
    requires { 86 ≤ length out.old }
    ensures { Says (group_text group (maps.lookup maps.numbers group area.now.groups)) result out.new }
{
    let first = queries::first_index(area, group)
        .unwrap_or(None)
        .unwrap_or(0);
    let entries = queries::entry_count(area, group).unwrap_or(0);
    let keys = queries::key_count(area, group).unwrap_or(0);
    group_line(out, group, first, entries as u64, keys as u64)
}

// The lines of the groups with these numbers, which are all of them. It takes the slices, since its proof needs what holds of an area
// between calls, and of an `Area` that is known only where its fields are read.
fn groups_text(xs: &[u64], bs: &[u8], numbers: &[u64], out: &mut [u8]) -> usize
    requires wf { Wf xs.now bs.now }
    requires numbers_value { numbers.now ≡ group_numbers (context_of xs.now bs.now) }
    requires in_bounds { 688 ≤ length out.old }
    ensures says { Says (groups_text (context_of xs.now bs.now).groups) result out.new }
    ensures upper_bound { result ≤ 688 }
{
    let mut at = 0;
    for &group in numbers {
        let e = at + GROUP_MOST;
        at += group_text(&Area { xs, bs }, group, &mut out[at..e]);
    }
    at
}

// The line of the live counts.
fn live_text(area: &Area, out: &mut [u8]) -> usize
    requires { 44 ≤ length out.old }
    ensures { Says (live_line (live_entries Append area.now) (live_entries Rewrite area.now)) result out.new }
{
    let append = queries::live_entries(area, LogQueue::Append);
    let rewrite = queries::live_entries(area, LogQueue::Rewrite);
    live_line(out, append as u64, rewrite as u64)
}

// The lines of all groups, ascending, and of the live counts. It takes the slices as `groups_text` does.
pub fn totals(xs: &[u64], bs: &[u8], out: &mut [u8]) -> usize
    requires wf { Wf xs.now bs.now }
    requires in_bounds { 732 ≤ length out.old }
    ensures { Says (groups_text (context_of xs.now bs.now).groups ++ live_line (live_entries Append (context_of xs.now bs.now)) (live_entries Rewrite (context_of xs.now bs.now))) result out.new }
{
    let area = Area { xs, bs };
    let mut list = [0u64; SLOTS];
    let count = queries::group_numbers(&area, &mut list).unwrap_or(0);
    let at = groups_text(xs, bs, &list[..count], out);
    let e = at + LINE_MOST;
    at + live_text(&area, &mut out[at..e])
}
