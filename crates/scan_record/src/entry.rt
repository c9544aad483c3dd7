// One alarm's part of a scan record. Record and offset are two parameters, as in the definitions: the offset is another one at each call.
ghost use Rattle.std.specs.Prelude.{◌≡◌, ◌+◌, ◌≤◌, length};
ghost use Rattle.std.specs.Float.{binary32};
ghost use Rattle.std.specs.Float.Ieee.{of_bits};
ghost use Rattle.wire.specs.Real.{bounded};
ghost use Rattle.wire.specs.Bits.{is_one_of, sets_only};
ghost use Rattle.wire.specs.Internal.Words.{mask_of};
ghost use Rattle.scan_record.specs.Part.{entry_size};
ghost use Rattle.scan_record.specs.Entry.{bits_of, entry_at};

use crate::part::{ANALOG_PART, ANALOG_WORD, DIGITAL_PART, DIGITAL_WORD};
use settings::refusals::{Reason, Refusal};
use settings::types::{Form, Reading};
use wire::number::LittleEndian;
use wire::real::from_pattern;

// An alarm's part, decoded, and the offset past it.
#[derive(Clone, Copy)]
pub struct Entry {
    pub reading: Reading,
    pub word: u32,
    pub next: usize,
}

// The highest byte that is a digital reading.
const HIGHEST_INPUT: u8 = 1;

// The bits that a command word of each form may set: 0 to 12 and 25, and 0 to 25 without 1 and 8.
const DIGITAL_BITS: u32 = 0x0200_1FFF;

const ANALOG_BITS: u32 = 0x03FF_FEFD;

fn command_bits(form: Form) -> u32
    ensures { result ≡ mask_of 32 (is_one_of (bits_of form)) }
{
    match form {
        Form::Digital => DIGITAL_BITS,
        Form::Analog => ANALOG_BITS,
    }
}

// Whether each bit that a word sets is one of its form's.
fn is_command(word: u32, form: Form) -> bool
    ensures { result ≡ sets_only (bits_of form) 32 word }
{
    (word & command_bits(form)) == word
}

// A REAL's sign bit, and below it the bit pattern of the largest REAL within the bound.
const SIGN: u32 = 0x8000_0000;

const LARGEST: u32 = 0x5863_5FA9;

// Whether the REAL of a bit pattern is within the bound: without their signs patterns stand in the order of magnitudes. Not by `is_bounded`,
// which takes a REAL: the test needs none (docs/DECISIONS.md, 2).
fn is_bounded_pattern(pattern: u32) -> bool
    ensures { result ≡ bounded (of_bits binary32 pattern) }
{
    pattern % SIGN <= LARGEST
}

// No function for both forms is plainer: they read a byte or a REAL, and refuse it for other reasons. Each has a length of its own, which one
// contract asks for, so that no type for it is plainer.
fn digital_entry(bytes: &[u8], at: usize, alarm: usize) -> Result<Entry, Refusal>
    requires { at + 5 ≤ length bytes.now }
    ensures { result ≡ entry_at Form.Digital bytes.now at alarm }
{
    let input = bytes[at];
    let word = u32::get(bytes, at + DIGITAL_WORD);
    if HIGHEST_INPUT < input {
        return Err(Reason::NotABit.at(alarm));
    }
    if !is_command(word, Form::Digital) {
        return Err(Reason::UnknownCommand.at(alarm));
    }
    Ok(Entry {
        reading: Reading::Digital(input == 1),
        word,
        next: at + DIGITAL_PART,
    })
}

fn analog_entry(bytes: &[u8], at: usize, alarm: usize) -> Result<Entry, Refusal>
    requires { at + 8 ≤ length bytes.now }
    ensures { result ≡ entry_at Form.Analog bytes.now at alarm }
{
    let pattern = u32::get(bytes, at);
    let word = u32::get(bytes, at + ANALOG_WORD);
    if !is_bounded_pattern(pattern) {
        return Err(Reason::BadReal.at(alarm));
    }
    if !is_command(word, Form::Analog) {
        return Err(Reason::UnknownCommand.at(alarm));
    }
    Ok(Entry {
        reading: Reading::Level(from_pattern(pattern)),
        word,
        next: at + ANALOG_PART,
    })
}

// The part of alarm number `alarm`, at an offset, or its first refusal.
pub fn entry_at(bytes: &[u8], at: usize, form: Form, alarm: usize) -> Result<Entry, Refusal>
    requires { at + entry_size form ≤ length bytes.now }
    ensures { result ≡ entry_at form bytes.now at alarm }
{
    match form {
        Form::Digital => digital_entry(bytes, at, alarm),
        Form::Analog => analog_entry(bytes, at, alarm),
    }
}
