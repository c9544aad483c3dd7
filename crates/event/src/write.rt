// The writer of event records. What writes takes the buffer with an offset, as the clauses say it; a cursor would have to say in each
// contract that it still lends the same buffer.
ghost use Rattle.std.specs.Prelude.{◌≡◌, ◌++◌, ◌+◌, ◌*◌, ◌^◌, ◌≤◌, ◌<◌, length};
ghost use Rattle.std.proofs.lemmas.List.Edits.{sets};
ghost use Rattle.wire.specs.Number.{bytes};
ghost use Rattle.event.specs.Event.{event_bytes};
ghost use Rattle.event.specs.Internal.Bits.{head_of};
ghost use Rattle.event.specs.Internal.Source.{source_event, source_log};
ghost use Rattle.event.specs.Internal.Kind.{kind_number};
ghost use Rattle.wire.specs.Internal.Places.{word_bits};

use crate::kind::EventKind;
use crate::slot::slot_at;
use crate::source::Source;
use settings::severity::acting_severity;
use wire::number::LittleEndian;
use wire::places::CONDITION_BITS;

// Bytes of a record.
pub const EVENT_SIZE: usize = 16;

// What one counts in the fields of a record's head: the condition, the kind, the suppressed byte, the severity.
pub const CONDITION: u64 = 0x100;

pub const KIND: u64 = 0x1_0000;

pub const SUPPRESSED: u64 = 0x100_0000;

pub const SEVERITY: u64 = 0x1_0000_0000;

// The condition of an event of the whole alarm. A number and no enum: the others are counted, one from place to place.
const WHOLE_ALARM: u8 = 7;

// The bits of the whole alarm.
const WHOLE_BITS: u32 = 9;

// How many conditions an alarm has at most.
const MOST_CONDITIONS: u32 = 6;

// What a one counts past the bits of an event word, those of the whole alarm and of its conditions.
const PAST_BITS: u32 = 1 << (WHOLE_BITS + MOST_CONDITIONS * CONDITION_BITS);

// The eight bytes in front of a record's time. `as` takes the number of an enum. That a severity fits two bytes is said for the caller's proof.
fn head(source: &Source<'_>, condition: u8, kind: EventKind, severity: u16) -> u64
    ensures value { result ≡ head_of source.now.number condition (kind_number kind) source.now.suppressed severity }
    ensures upper_bound { (result < 2 ^ 48) × (severity < 65536) }
{
    u64::from(source.number)
        + CONDITION * u64::from(condition)
        + KIND * (kind as u64)
        + SUPPRESSED * u64::from(source.suppressed)
        + SEVERITY * u64::from(severity)
}

// The head of the event at a bit of an event word. A kind is counted from the first of its group and not named, since a word may have bits
// that are no kind's. `as` widens.
fn head_at(source: &Source<'_>, bit: u32) -> u64
    requires { bit < word_bits }
    ensures { event_bytes (source_event source.now bit) ≡ bytes 8 result ++ bytes 8 source.now.time }
{
    if bit < WHOLE_BITS {
        return head(source, WHOLE_ALARM, EventKind::Disabled, 0) + KIND * u64::from(bit);
    }
    let own = bit - WHOLE_BITS;
    let slot = slot_at(source, (own / CONDITION_BITS) as usize);
    let severity = acting_severity(slot.severity);
    head(source, slot.condition, EventKind::Acknowledged, severity)
        + KIND * u64::from(own % CONDITION_BITS)
}

// The record of the event at a bit, as two numbers. No other contract asks for this length, so that no type for it is plainer.
fn put_event(out: &mut [u8], at: usize, source: &Source<'_>, bit: u32)
    requires { (bit < word_bits) × (at + 16 ≤ length out.old) }
    ensures { out.new ≡ sets out.old at (event_bytes (source_event source.now bit)) }
{
    head_at(source, bit).put(out, at);
    source.time.put(out, at + 8);
}

// Writes the events that an alarm's event word stands for, in order, and answers the offset past them. Few bits of a word are set, so it
// goes from one of these to the next; a `while`, since std has no iterator over them.
#[inline(always)]
pub fn put_events(out: &mut [u8], start: usize, source: &Source<'_>, events: u32) -> usize
    requires { start + length (source_log source.now word_bits 0 events) ≤ length out.old }
    ensures value { result ≡ start + length (source_log source.now word_bits 0 events) }
    ensures out_after { out.new ≡ sets out.old start (source_log source.now word_bits 0 events) }
{
    // bits past those of events stand for none
    let mut rest = events % PAST_BITS;
    let mut at = start;
    while rest != 0 {
        put_event(out, at, source, rest.trailing_zeros());
        at += EVENT_SIZE;
        // without the lowest bit that is set
        rest &= rest - 1;
    }
    at
}
