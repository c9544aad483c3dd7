// The words of a line, one or more spaces apart, and what they spell.
ghost use Rattle.std.specs.Prelude.{◌≡◌, ◌≢◌, ℕ, ◌^◌, ◌<◌, ◌≤◌, ◌↔◌, All, length, IsNone, IfSome, SomeIff, IfOk, None, Some, cond};
ghost use Rattle.std.specs.Result.{result_ok};
ghost use Rattle.std.specs.Str.Parse.{IsNumeral, digits_value};
ghost use Rattle.hex.specs.Hex.{decode_of};

use crate::fault::{BadLine, Fault, MOST_ROOM};
use std::alloc::AllocError;

#[derive(Clone, Copy)]
pub(crate) struct Words<'a> {
    rest: &'a [u8],
    // The place of the last word that was asked for, counted from 1.
    place: usize,
}

impl<'a> Words<'a> {
    pub(crate) fn new(line: &'a [u8]) -> Words<'a> {
        Words {
            rest: line,
            place: 0,
        }
    }

    // What is wrong with the last word that was asked for.
    pub(crate) fn bad(&self, fault: Fault) -> BadLine {
        BadLine::Word {
            place: self.place,
            fault,
        }
    }

    // The next word, if there is one more.
    pub(crate) fn next_word(&mut self) -> Option<&'a [u8]>
        ensures word { IfSome result (λ w. (0 < length w.now) × All (λ b. b ≢ 32) w.now) }
        ensures none { IsNone result ↔ All (λ b. b ≡ 32) self.old.rest.now }
    {
        self.place = self.place.saturating_add(1);
        let begin = self.rest.iter().position(|byte| *byte != b' ')?;
        let word = &self.rest[begin..];
        let end = word
            .iter()
            .position(|byte| *byte == b' ')
            .unwrap_or(word.len());
        self.rest = &word[end..];
        Some(&word[..end])
    }

    fn needed_word(&mut self) -> Result<&'a [u8], BadLine> {
        match self.next_word() {
            Some(word) => Ok(word),
            None => Err(self.bad(Fault::Missing)),
        }
    }

    // A number in decimal digits.
    pub(crate) fn number(&mut self) -> Result<usize, BadLine> {
        let word = self.needed_word()?;
        number(word).ok_or(self.bad(Fault::NoNumber))
    }

    // The length of a buffer.
    pub(crate) fn room(&mut self) -> Result<usize, BadLine>
        ensures { IfOk result (λ room. room ≤ 65536) }
    {
        let room = self.number()?;
        if MOST_ROOM < room {
            return Err(self.bad(Fault::TooLarge));
        }
        Ok(room)
    }

    // A role, of which there is none yet.
    pub(crate) fn no_role(&mut self) -> Result<(), BadLine> {
        match self.needed_word()? {
            b"-" => Ok(()),
            _ => Err(self.bad(Fault::NoRole)),
        }
    }

    // Bytes in pairs of hexadecimal digits, or `-` for none. They come to `block`.
    pub(crate) fn bytes<'b>(&mut self, block: &'b mut Vec<u8>) -> Result<&'b [u8], BadLine> {
        let digits = match self.needed_word()? {
            b"-" => b"",
            word => word,
        };
        if put_bytes(digits, block)? {
            Ok(block.as_slice())
        } else {
            Err(self.bad(Fault::NoBytes))
        }
    }

    // The line's end.
    pub(crate) fn end(&mut self) -> Result<(), BadLine> {
        match self.next_word() {
            None => Ok(()),
            Some(_) => Err(self.bad(Fault::OneTooMany)),
        }
    }
}

// The number of up to 64 bits that decimal digits spell, and nothing but digits.
fn number(word: &[u8]) -> Option<usize>
    ensures { SomeIff result (IsNumeral 10 word.now × (digits_value 10 word.now < 2 ^ 64)) (digits_value 10 word.now) }
{
    if let [b'+', ..] = word {
        return None;
    }
    match str::from_utf8(word) {
        Ok(digits) => digits.parse().ok(),
        Err(_) => None,
    }
}

// Whether digits are pairs of hexadecimal ones. The bytes that they spell are all that `block` then has.
fn put_bytes(digits: &[u8], block: &mut Vec<u8>) -> Result<bool, AllocError>
    ensures { IfOk result (λ found. result_ok (decode_of digits.now) ≡ cond found (Some block.new.items) None) }
{
    block.clear();
    block.resize(digits.len() / 2, 0)?;
    Ok(hex::decode_to_slice(digits, block.as_mut_slice()).is_ok())
}
