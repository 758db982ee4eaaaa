// Numbers that stand for enums and structs.
ghost use Rattle.std.specs.Prelude.{◌≡◌};
ghost use Rattle.rules.specs.Context.{Context};
ghost use Rattle.contexts.specs.Contexts.{answer_as};
ghost use Rattle.maps.specs.Lists.{or_else};
ghost use Rattle.galdnyrr.specs.Told.{no_place, file_of, gate_or, number_of, place_of};

use pipe_log::{FileId, LogQueue, Refusal};

// The place of a refusal that was met at no item.
pub const NO_PLACE: u64 = 0xffff_ffff_ffff_ffff;

// The file of a queue's number and a sequence number.
pub fn file_of(queue: u64, seq: u64) -> FileId
    ensures { result ≡ file_of queue seq }
{
    FileId {
        queue: LogQueue::from(queue),
        seq,
    }
}

// A gate or a bound: none, or a number. C has no `Option`, so a flag goes beside the number.
#[tactic(auto, unfolding(crate::specs::Told::gate_or))]
pub fn gate_of(gated: bool, gate: u64) -> Option<u64>
    ensures { result ≡ gate_or gated gate }
{
    gated.then_some(gate)
}

// The number of a position.
fn place_of(place: Option<usize>) -> u64
    ensures { result ≡ or_else no_place (λ i. i) place }
{
    match place {
        None => NO_PLACE,
        Some(i) => i as u64,
    }
}

// Tells an answer: its number is returned, and its place is written.
pub fn tell(answer: Result<(), Refusal>, place: &mut u64) -> u64
    ensures { (c : Context) → (result ≡ number_of (answer_as answer c)) × (place.new ≡ place_of (answer_as answer c)) }
{
    match answer {
        Ok(()) => {
            *place = NO_PLACE;
            0
        }
        Err(refusal) => {
            *place = place_of(refusal.place);
            refusal.cause.number()
        }
    }
}
