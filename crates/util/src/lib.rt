// The mixing of group numbers (raft-engine's src/util.rs, `hash_u64`, which is that of splitmix64.c) and the slot of
// a group.
#![tactic(auto)]

ghost use Rattle.std.specs.Prelude.{◌≡◌};
ghost use Rattle.util.specs.Mixing.{mixed, SlotIndex};

// The numbers of splitmix64.c.
const FIRST_SHIFT: u64 = 30;

const FIRST_FACTOR: u64 = 0xbf58_476d_1ce4_e5b9;

const SECOND_SHIFT: u64 = 27;

const SECOND_FACTOR: u64 = 0x94d0_49bb_1331_11eb;

const THIRD_SHIFT: u64 = 31;

// A group's number, mixed.
#[tactic(auto, unfolding(crate::specs::Mixing::mixed))]
pub fn hash_u64(i: u64) -> u64
    ensures { result ≡ mixed i }
{
    let first = (i ^ (i >> FIRST_SHIFT)).wrapping_mul(FIRST_FACTOR);
    let second = (first ^ (first >> SECOND_SHIFT)).wrapping_mul(SECOND_FACTOR);
    second ^ (second >> THIRD_SHIFT)
}

// How many slots the groups are spread over.
pub const MEMTABLE_SLOT_COUNT: usize = 128;

// The slot of a group.
#[tactic(auto, unfolding(crate::specs::Mixing::slot_of))]
pub fn slot_index(id: u64) -> usize
    ensures { SlotIndex id result }
{
    hash_u64(id) as usize % MEMTABLE_SLOT_COUNT
}
