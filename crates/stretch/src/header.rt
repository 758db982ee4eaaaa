// The header of a stretch: the group's number, its head, the number of its keys.
ghost use Rattle.std.specs.Prelude.{◌≡◌, ◌≤◌, length};
ghost use Rattle.cells.specs.Part.{put};
ghost use Rattle.stretch.specs.Stretch.{span_in, head_part, span_numbers, head_numbers, made_header};

use crate::ENTRY_COUNT;
use memtable::Head;
use pipe_log::Span;

// The span that a header has.
#[tactic(auto, unfolding(crate::specs::Stretch::span_in))]
fn span_in(p: &[u64]) -> Option<Span>
    requires { 10 ≤ length p.now }
    ensures { result ≡ span_in p.now }
{
    if p[5] == 0 {
        return None;
    }
    Some(Span {
        start: p[6],
        end: p[7],
    })
}

// The head that a header has.
#[tactic(auto, unfolding(crate::specs::Stretch::head_part))]
pub fn head_in(p: &[u64]) -> Head
    requires { 10 ≤ length p.now }
    ensures { result ≡ head_part p.now }
{
    let atomic_group = span_in(p);
    Head {
        first_index: p[2],
        len: p[ENTRY_COUNT] as usize,
        rewrite_count: p[4] as usize,
        atomic_group,
    }
}

// The numbers of a span.
#[tactic(auto, unfolding(crate::specs::Stretch::span_numbers))]
fn span_numbers(span: Option<Span>) -> [u64; 3]
    ensures { result ≡ span_numbers span }
{
    match span {
        None => [0, 0, 0],
        Some(Span { start, end }) => [1, start, end],
    }
}

// Writes a head into the header.
pub fn write_head(p: &mut [u64], head: Head)
    requires { 10 ≤ length p.old }
    ensures { p.new ≡ put p.old 2 (head_numbers head) }
{
    let span = head.atomic_group;
    let told = span_numbers(span);
    let numbers = [
        head.first_index,
        head.len as u64,
        head.rewrite_count as u64,
        told[0],
        told[1],
        told[2],
    ];
    cells::copy_in(p, 2, &numbers);
}

// Makes the stretch that of a group with nothing in it.
#[tactic(auto, unfolding(crate::specs::Stretch::made_header))]
pub fn make(p: &mut [u64], group: u64)
    requires { 10 ≤ length p.old }
    ensures { p.new ≡ put p.old 0 (made_header group) }
{
    let numbers = [1, group, 0, 0, 0, 0, 0, 0, 0, 1];
    cells::copy_in(p, 0, &numbers);
}
