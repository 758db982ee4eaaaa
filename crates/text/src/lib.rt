// Decimal numbers in texts: what the test programs read.
#![tactic(auto)]

mod filling;

ghost use Rattle.std.specs.Prelude.{◌≡◌, ◌≤◌, ◌<◌, ◌++◌, All, IfOk, IfSome, MatchOption, OnOk, flat_map, length};
ghost use Rattle.text.specs.Decimals.{IsNumber, IsNumberBefore, IsWellFormed, lines_of, numbers_in, numbers_told, words_in};
ghost use Rattle.std.specs.Str.Parse.{digits_value};

pub use filling::read_full;
use std::alloc::{AllocError, Global};
use std::io::Read;
use std::{io, str};
use thiserror::Error;

// Why a text gives no numbers.
#[derive(Debug, Drop, Error)]
pub enum ReadError {
    #[error("malformed")]
    Malformed,
    #[error(transparent)]
    Memory(#[from(alloc)] AllocError),
}

// The bytes of an input of fewer than `most`, or `None` where it is longer.
pub fn read_below<R: Read>(alloc: Global, input: &mut R, most: usize) -> io::Result<Option<Vec<u8>>>
    ensures { IfOk result (λ read. IfSome (R.remaining input.old) (λ left. MatchOption read (most ≤ length left)
        (λ bytes. (length left < most) × (bytes.items ≡ left)))) }
{
    let mut bytes = vec![in alloc; 0u8; most]?;
    let count = read_full(input, bytes.as_mut_slice())?;
    if count == most {
        return Ok(None);
    }
    bytes.truncate(count);
    Ok(Some(bytes))
}

// The decimal number at the front of a text, which the byte `end` ends, and what stands behind that byte.
pub fn number_at(text: &[u8], end: u8) -> Option<(u64, &[u8])>
    ensures { IfSome result (λ r. IsNumberBefore text.now end r.0 r.1.now) }
{
    let mut value: u64 = 0;
    for i in 0..text.len() {
        let b = text[i];
        if b == end && 0 < i {
            return Some((value, &text[i + 1..]));
        }
        if b < b'0' || b'9' < b {
            return None;
        }
        value = value.checked_mul(10)?.checked_add(u64::from(b - b'0'))?;
    }
    None
}

// The number of a word, which has to be decimal digits alone, of no more than a u64 holds.
pub fn number(word: &str) -> Option<u64>
    ensures { MatchOption result (¬ IsNumber word.now) (λ v. IsNumber word.now × (v ≡ digits_value 10 word.now)) }
{
    // `parse` would pass over a plus sign.
    if word.starts_with('+') {
        return None;
    }
    word.parse().ok()
}

// Puts the numbers of a line, with a space between each two, behind those that stand in a list.
pub fn add_numbers(line: &str, numbers: &mut Vec<u64>) -> Result<(), ReadError>
    ensures words { OnOk result (All IsNumber (words_in line.now)) }
    ensures numbers { OnOk result (numbers.new.items ≡ numbers.old.items ++ numbers_in line.now) }
{
    for word in line.split(' ') {
        numbers.push(number(word).ok_or(ReadError::Malformed)?)?;
    }
    Ok(())
}

// The numbers of a line, with a space between each two.
pub fn line_numbers(alloc: Global, line: &str) -> Result<Vec<u64>, ReadError>
    ensures words { OnOk result (All IsNumber (words_in line.now)) }
    ensures numbers { IfOk result (λ v. v.items ≡ numbers_in line.now) }
{
    let mut numbers = Vec::new(alloc);
    add_numbers(line, &mut numbers)?;
    Ok(numbers)
}

// The numbers of a text of lines, each ended, of which those that begin with # are passed over.
pub fn read_all(alloc: Global, text: &[u8]) -> Result<Vec<u64>, ReadError>
    ensures lines { OnOk result (All IsWellFormed (lines_of text.now)) }
    ensures numbers { IfOk result (λ v. v.items ≡ flat_map numbers_told (lines_of text.now)) }
{
    let mut numbers = Vec::new(alloc);
    if text.is_empty() {
        return Ok(numbers);
    }
    let Ok(told) = str::from_utf8(text) else {
        return Err(ReadError::Malformed);
    };
    let lines = told.strip_suffix('\n').ok_or(ReadError::Malformed)?;
    for line in lines.split('\n') {
        if !line.starts_with('#') {
            add_numbers(line, &mut numbers)?;
        }
    }
    Ok(numbers)
}

#[cfg(test)]
mod tests {
    use super::*;
    use std::test::Fail;

    #[test]
    fn numbers_are_read(rt: HostRuntime) -> Result<(), Fail> {
        let numbers = read_all(rt.alloc(), b"# 7 x\n1 020\n#\n18446744073709551615\n")?;
        assert_eq!(rt; numbers.as_slice(), [1, 20, u64::MAX].as_slice());
        Ok(())
    }

    #[test]
    fn short_inputs_are_read(rt: HostRuntime) -> Result<(), Fail> {
        let mut input: &[u8] = b"1 2\n";
        let bytes = read_below(rt.alloc(), &mut input, 5)?;
        assert!(rt; bytes.is_some_and(|bytes| bytes.as_slice() == b"1 2\n".as_slice()));
        let mut input: &[u8] = b"1 2\n";
        assert!(rt; read_below(rt.alloc(), &mut input, 4)?.is_none());
        Ok(())
    }

    #[test]
    fn numbers_are_added(rt: HostRuntime) -> Result<(), Fail> {
        let mut numbers = vec![in rt.alloc(); 7]?;
        add_numbers("1 020", &mut numbers)?;
        assert_eq!(rt; numbers.as_slice(), [7, 1, 20].as_slice());
        Ok(())
    }

    #[test]
    fn number_is_at_the_front(rt: HostRuntime) {
        let read = number_at(b"012 3", b' ');
        assert!(rt; read.is_some_and(|(number, rest)| number == 12 && rest == b"3".as_slice()));
        for text in ["", " ", "12", "1x ", "+1 ", "18446744073709551616 "] {
            assert!(rt; number_at(text.as_bytes(), b' ').is_none(), "{text:?}");
        }
    }

    #[test]
    fn malformed_is_refused(rt: HostRuntime) {
        let texts = [
            "1",
            "\n",
            "1  2\n",
            " 1\n",
            "1 \n",
            "1\r\n",
            "+1\n",
            "1 # 2\n",
            "18446744073709551616\n",
        ];
        for text in texts {
            let read = read_all(rt.alloc(), text.as_bytes());
            assert!(rt; matches!(read, Err(ReadError::Malformed)), "{text:?}");
        }
    }
}
