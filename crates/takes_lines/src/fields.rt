// The letters of lines, and the fields of a line in the order that its letter gives them.
ghost use Rattle.std.specs.Prelude.{◌≡◌};
ghost use Rattle.takes_lines.specs.Reading.{after, is_last};
ghost use Rattle.takes_lines.specs.Letters.{letter_number, Decodes};

use crate::line::Malformed;

// What a line says of a group, by its letter; M stands alone, and ends a run.
#[derive(Clone, Copy, Debug, PartialEq, Eq)]
pub enum Letter {
    Entries,
    Put,
    Del,
    Compact,
    Clean,
    Merge,
}

impl TryFrom<u8> for Letter {
    type Error = Malformed;

    ghost try_from_gives = { Decodes };

    #[tactic(auto, using(std::proofs::lemmas::Bool::Decides::nat_tests), unfolding(crate::specs::Reading::is_letter))]
    fn try_from(b: u8) -> Result<Self, Malformed> {
        match b {
            b'E' => Ok(Letter::Entries),
            b'P' => Ok(Letter::Put),
            b'D' => Ok(Letter::Del),
            b'C' => Ok(Letter::Compact),
            b'X' => Ok(Letter::Clean),
            b'M' => Ok(Letter::Merge),
            _ => Err(Malformed),
        }
    }
}

// The fields by document 01's names, and one that the line's letter does not have.
#[derive(Clone, Copy, Debug, PartialEq, Eq)]
pub enum Field {
    Letter,
    Group,
    First,
    Index,
    File,
    Length,
    Key,
    Value,
    Extra,
}

// The field behind `field` in a line with this letter, 0 before it is read.
#[tactic(auto, using(std::proofs::lemmas::Bool::Decides::nat_tests), unfolding(crate::specs::Reading::after))]
pub fn after(letter: u8, field: Field) -> Field
    ensures { result ≡ after letter field }
{
    match (field, letter) {
        (Field::Letter, 0 | b'M') => Field::Extra,
        (Field::Letter, _) => Field::Group,
        (Field::Group, b'E') => Field::First,
        (Field::Group, b'P') => Field::File,
        (Field::Group, b'D') => Field::Key,
        (Field::Group, b'C') => Field::Index,
        (Field::First, _) => Field::File,
        (Field::File, b'E') => Field::Length,
        (Field::File, _) => Field::Key,
        (Field::Length, _) => Field::Length,
        (Field::Key, b'P') => Field::Value,
        _ => Field::Extra,
    }
}

// Whether a line with this letter may end with `field`.
#[tactic(auto, using(std::proofs::lemmas::Bool::Decides::nat_tests), unfolding(crate::specs::Reading::is_last))]
pub fn is_last(letter: u8, field: Field) -> bool
    ensures { result ≡ is_last field letter }
{
    matches!(
        (field, letter),
        (Field::Letter, b'M')
            | (Field::Group, b'X')
            | (Field::Index, b'C')
            | (Field::Length, b'E')
            | (Field::Key, b'D')
            | (Field::Value, b'P')
    )
}

// The byte of a letter, 0 where there is none.
fn byte_of(letter: Option<Letter>) -> u8
    ensures { result ≡ letter_number letter }
{
    match letter {
        None => 0,
        Some(Letter::Entries) => b'E',
        Some(Letter::Put) => b'P',
        Some(Letter::Del) => b'D',
        Some(Letter::Compact) => b'C',
        Some(Letter::Clean) => b'X',
        Some(Letter::Merge) => b'M',
    }
}

impl Field {
    // The field behind this one in a line of this letter.
    pub fn after(self, letter: Option<Letter>) -> Field
        ensures { result ≡ after (letter_number letter) self }
    {
        after(byte_of(letter), self)
    }

    // Whether a line of this letter may end with this field.
    pub fn is_last(self, letter: Option<Letter>) -> bool
        ensures { result ≡ is_last self (letter_number letter) }
    {
        is_last(byte_of(letter), self)
    }
}
