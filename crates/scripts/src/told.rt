// Every answer as three numbers: the number of the refusal, 0 for none, and what else is told.
ghost use Rattle.std.specs.Prelude.{◌≡◌};
ghost use Rattle.scripts.specs.Told.{told_refused, told_option, told_answer, told_number, told_count, told_entry, told_flag, told_before};

use pipe_log::{Cause, EntryIndex, Refusal};

// A refusal of a call that tells no position.
fn told_refused(cause: Cause) -> [u64; 3]
    ensures { result ≡ told_refused cause }
{
    [cause.number(), 0, 0]
}

// A value that may be absent.
fn told_option(number: u64, value: Option<u64>) -> [u64; 3]
    ensures { result ≡ told_option number value }
{
    match value {
        None => [number, 0, 0],
        Some(n) => [number, 1, n],
    }
}

// What a call that writes tells: of a refusal also its position.
pub fn told_answer(answer: Result<(), Refusal>) -> [u64; 3]
    ensures { result ≡ told_answer answer }
{
    match answer {
        Ok(()) => [0, 0, 0],
        Err(Refusal { cause, place }) => told_option(cause.number(), place.map(|i| i as u64)),
    }
}

// A number that may be absent.
pub fn told_number(found: Result<Option<u64>, Cause>) -> [u64; 3]
    ensures { result ≡ told_number found }
{
    match found {
        Ok(number) => told_option(0, number),
        Err(cause) => told_refused(cause),
    }
}

// A count: of what a group has, of rows that were filled, or of numbers that were handed out.
pub fn told_count(counted: Result<usize, Cause>) -> [u64; 3]
    ensures { result ≡ told_count counted }
{
    match counted {
        Ok(n) => [0, n as u64, 0],
        Err(cause) => told_refused(cause),
    }
}

// Whether there is an entry record.
pub fn told_entry(found: Result<Option<EntryIndex>, Cause>) -> [u64; 3]
    ensures { result ≡ told_entry found }
{
    match found {
        Ok(entry) => told_flag(entry.is_some()),
        Err(cause) => told_refused(cause),
    }
}

// 1 for true, and 0 for false.
pub fn told_flag(answer: bool) -> [u64; 3]
    ensures { result ≡ told_flag answer }
{
    [0, u64::from(answer), 0]
}

// What `has_at_least_some_entries_before` tells.
pub fn told_before(answer: Result<bool, Cause>) -> [u64; 3]
    ensures { result ≡ told_before answer }
{
    match answer {
        Ok(before) => told_flag(before),
        Err(cause) => told_refused(cause),
    }
}
