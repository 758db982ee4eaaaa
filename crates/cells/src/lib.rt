// Moves within and between lent slices, and where something stands among slots; `order` has the order of bytes.
#![tactic(auto)]

pub mod order;

ghost use Rattle.std.specs.Prelude.{◌≡◌, ◌+◌, ◌≤◌, length, replicate};
ghost use Rattle.cells.specs.Part.{part, put};

pub use order::compare_u8;

// Where something stands among numbered slots: in one, or nowhere with a free one for it, or nowhere and all are used.
#[derive(Clone, Copy)]
pub enum Slot {
    At(usize),
    Free(usize),
    Full,
}

// Copies all of `src` into `dst` from place `at`.
#[tactic(auto, using(crate::proofs::Moves::copied))]
pub fn copy_in<T: Copy>(dst: &mut [T], at: usize, src: &[T])
    requires { at + length src.now ≤ length dst.old }
    ensures { dst.new ≡ put dst.old at src.now }
{
    dst[at..at + src.len()].copy_from_slice(src);
}

// Moves `count` elements of `s` from place `from` to place `to`, down or up. The stretches may overlap.
#[tactic(auto, using(crate::proofs::Moves::shifted))]
pub fn shift<T: Copy>(s: &mut [T], from: usize, to: usize, count: usize)
    requires { (from + count ≤ length s.old) × (to + count ≤ length s.old) }
    ensures { s.new ≡ put s.old to (part from count s.old) }
{
    s.copy_within(from..from + count, to);
}

// Writes `value` to `count` places of `s` from place `at`.
pub fn fill<T: Copy>(s: &mut [T], at: usize, count: usize, value: T)
    requires { at + count ≤ length s.old }
    ensures { s.new ≡ put s.old at (replicate count value) }
{
    for place in &mut s[at..at + count] {
        *place = value;
    }
}
