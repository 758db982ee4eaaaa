// Contexts and the index over lent areas: the lengths of an area, what it stands for, what a call answers, an area that is lent to be
// read, and a fresh context.
#![tactic(auto)]

ghost use Rattle.std.specs.Prelude.{◌≡◌, ◌≤◌, ◌<◌, ◌*◌, length, get_or, drop};
ghost use Rattle.contexts.specs.Contexts.{Cleared, FreshArea};

use groups::SLOTS;
use pipe_log::LogQueue;
use std::marker::Model;
use stretch::STRETCH;

// The lengths of an area: its numbers and its bytes.
pub const NUMBERS: usize = groups::NUMBERS + lists::NUMBERS;

pub const BYTES: usize = groups::BYTES + lists::BYTES;

// Where the numbers and the bytes of the waiting parts stand.
pub const WAITING_FROM: usize = groups::NUMBERS + lists::ROWS_TO;

pub const WAITING_TO: usize = WAITING_FROM + room::NUMBERS;

pub const WAITING_BYTES_FROM: usize = groups::BYTES + lists::ROW_BYTES;

pub const WAITING_BYTES_TO: usize = WAITING_BYTES_FROM + room::BYTES;

// An area that is lent to be read, between calls: its numbers and its bytes. A clause sees the context or the index that it stands for.
// What writes an area is passed both slices, as C lends them: a struct that holds `&mut`s has to say in each contract that its fields keep
// their ghost names, so it is no plainer.
#[derive(Drop)]
pub struct Area<'x, 'b> {
    pub xs: &'x [u64],
    pub bs: &'b [u8],
}

impl<'x, 'b> Model for Area<'x, 'b> {
    ghost use Rattle.rules.specs.Context.{Context};
    ghost use Rattle.contexts.specs.Contexts.{context_of, Wf};

    ghost Value = { Context };

    ghost view = { λ a. context_of a.xs.now a.bs.now };

    ghost invariant = { λ a. Wf a.xs.now a.bs.now };
}

// Marks the eight stretches as free.
fn clear_groups(xs: &mut [u64])
    requires { length xs.old ≡ 17231 }
    ensures { Cleared 8 xs.old xs.new }
{
    for k in 0..SLOTS {
        xs[k * STRETCH] = 0;
    }
}

// Makes a fresh context of a queue, whatever the area held.
pub fn fresh(xs: &mut [u64], bs: &mut [u8], queue: LogQueue)
    requires { (length xs.old ≡ 17231) × (length bs.old ≡ 38912) }
    ensures { FreshArea queue xs.new bs.new }
{
    clear_groups(xs);
    let from = WAITING_FROM;
    let to = WAITING_TO;
    room::clear(&mut xs[from..to], room::CELLS);
    let a = groups::NUMBERS;
    lists::clear(&mut xs[a..], queue);
}
