// One more byte of the open field.
ghost use Rattle.std.specs.Prelude.{None, Some, cond, ◌≡◌, ◌+◌, ◌-◌, ◌*◌, ◌≤◌, ◌<◌, length, IfSome, SomeIff};
ghost use Rattle.cells.specs.Part.{part};
ghost use Rattle.takes_rules.specs.Fields.{hex_digit, is_digit_byte};
ghost use Rattle.takes_lines.specs.Reading.{keep, add_letter, add_digit, add_hex, add_to};
ghost use Rattle.takes_lines.specs.Views.{byte_for, Turns, TurnsBytes};

use crate::fields::{Field, Letter};
use crate::line::{LineReader, Malformed, OpenLine};
use crate::reader::{KEPT_MOST, MOST_LENGTH};

#[tactic(auto, using(crate::proofs::AddWays::letter_is), unfolding(crate::specs::Reading::add_letter, crate::specs::Views::read_of, crate::specs::Views::reading_of, crate::specs::Views::named_of))]
fn add_letter(mut line: OpenLine, b: u8) -> LineReader
    ensures { Turns line result (λ x. add_letter x b) }
{
    let letter = Letter::try_from(b)?;
    if line.letter.is_some() {
        return Err(Malformed);
    }
    line.letter = Some(letter);
    Ok(line)
}

// A number with one more digit, if it is at most `most`.
fn with_digit(number: u64, digit: u64, most: u64) -> Option<u64>
    ensures { SomeIff result (number * 10 + digit ≤ most) (number * 10 + digit) }
{
    number
        .checked_mul(10)?
        .checked_add(digit)
        .filter(|more| *more <= most)
}

// The value of a decimal digit.
#[tactic(auto, using(std::proofs::lemmas::Bool::Decides::nat_tests), unfolding(takes_rules::specs::Fields::is_digit_byte))]
fn decimal_digit(b: u8) -> Option<u64>
    ensures { result ≡ cond (is_digit_byte b) (Some (b - 48)) None }
{
    let digit = char::from(b).to_digit(10)?;
    Some(digit as u64)
}

// A digit of a number of at most `most`.
#[tactic(auto, using(std::proofs::lemmas::Bool::Decides::nat_tests), unfolding(crate::specs::Reading::add_digit, crate::specs::Views::read_of, crate::specs::Views::reading_of, crate::specs::Views::named_of))]
fn add_digit(mut line: OpenLine, b: u8, most: u64) -> LineReader
    ensures { Turns line result (λ x. add_digit (most + 1) x b) }
{
    let digit = decimal_digit(b).ok_or(Malformed)?;
    let number = with_digit(line.number.unwrap_or(0), digit, most).ok_or(Malformed)?;
    line.number = Some(number);
    Ok(line)
}

// The value of a hexadecimal digit, of either case.
#[tactic(auto, using(std::proofs::lemmas::Bool::Decides::nat_tests), unfolding(takes_rules::specs::Fields::hex_digit, takes_rules::specs::Fields::is_digit_byte))]
fn hex_digit(b: u8) -> Option<u8>
    ensures is { result ≡ hex_digit b }
    ensures small { IfSome result (λ d. d < 16) }
{
    let digit = char::from(b).to_digit(16)?;
    Some(digit as u8)
}

// Puts a byte behind the `len` that are kept, if more may be; the answer is how many are kept then.
#[tactic(auto, using(crate::proofs::AddWays::keep_part, crate::proofs::AddWays::keep_full))]
fn keep(kept: &mut [u8], len: usize, byte: u8) -> usize
    requires { (length kept.old ≡ 33) × (len ≤ 33) }
    ensures keeps { part 0 result kept.new ≡ keep (part 0 len kept.old) byte }
    ensures most { result ≤ 33 }
{
    if len == kept.len() {
        return len;
    }
    kept[len] = byte;
    len + 1
}

// A hexadecimal digit; the second makes a byte of the key or of the value.
#[tactic(auto, unfolding(crate::specs::Reading::add_hex, crate::specs::Reading::pair, crate::specs::Views::read_of, crate::specs::Views::reading_of, crate::specs::Views::named_of, takes_rules::specs::Fields::bind))]
fn add_hex(mut line: OpenLine, b: u8, is_key: bool, bytes: &mut [u8]) -> LineReader
    requires { length bytes.old ≡ 66 }
    ensures { TurnsBytes line bytes.old result bytes.new (λ x. add_hex (byte_for is_key) x b) }
{
    let digit = hex_digit(b).ok_or(Malformed)?;
    let Some(high) = line.high.take() else {
        line.high = Some(digit);
        return Ok(line);
    };
    let byte = high * 16 + digit;
    if is_key {
        line.key_len = keep(&mut bytes[..KEPT_MOST], line.key_len, byte);
        return Ok(line);
    }
    line.value_len = keep(&mut bytes[KEPT_MOST..], line.value_len, byte);
    Ok(line)
}

// Adds a byte that is no comma to the open field.
#[tactic(auto, unfolding(crate::specs::Reading::add_to, crate::specs::Views::read_of, crate::specs::Views::reading_of))]
pub fn add_to(line: OpenLine, b: u8, bytes: &mut [u8]) -> LineReader
    requires { length bytes.old ≡ 66 }
    ensures { TurnsBytes line bytes.old result bytes.new (λ x. add_to x.field x b) }
{
    match line.field {
        Field::Letter => add_letter(line, b),
        Field::Group | Field::First | Field::Index | Field::File => { add_digit(line, b, u64::MAX) }
        Field::Length => add_digit(line, b, MOST_LENGTH),
        Field::Key => add_hex(line, b, true, bytes),
        Field::Value => add_hex(line, b, false, bytes),
        Field::Extra => Err(Malformed),
    }
}
