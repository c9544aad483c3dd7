// The writer of a settings image. Offsets go from function to function as in the writer of event records (crates/event).
ghost use Rattle.std.specs.Prelude.{◌≡◌, ◌+◌, ◌*◌, ◌≤◌, ◌<◌, length};
ghost use Rattle.std.proofs.lemmas.List.Edits.{sets};
ghost use Rattle.std.proofs.Math.Seq.{slice};
ghost use Rattle.settings.specs.Counts.{all_most};
ghost use Rattle.wire.specs.Internal.Words.{words};
ghost use Rattle.settings_record.specs.Record.{size_of};
ghost use Rattle.image.specs.Internal.Write.{digital_bytes, analog_bytes, record_bytes, records_bytes, section_bytes, read_as};
ghost use Rattle.image.specs.Internal.Write.{size_of_image, has_room, written_of, image_buffer, write_of, write_buffer};
ghost use Rattle.layout.specs.Internal.Words.{form_of};
ghost use Rattle.layout.specs.Internal.Block.{settings_in};

use layout::block::{Block, block_in, counts_in};
use layout::place::Place;
use layout::read::alarm_in;
use layout::sizes::SETTINGS_WORDS;
use settings::counts::{Counts, GoodCounts, MOST, good_counts};
use settings::refusals::{Reason, Refusal};
use settings::types::{Alarm, Form, Kind, Limits, Severities};
use settings_record::fields::{ANALOG_SIZE, DIGITAL_SIZE};
use wire::number::LittleEndian;
use wire::real::to_pattern;

// The bytes of a record's flags, and of each number behind them.
const FLAGS: usize = 1;

const WORD: usize = 4;

// The bytes of the two counts.
const COUNTS: usize = 2;

// Bytes of the longest image.
pub const IMAGE_MOST: usize = COUNTS + MOST * (DIGITAL_SIZE + ANALOG_SIZE);

// Numbers one after the other, four bytes each.
fn put_words(out: &mut [u8], at: usize, numbers: &[u32])
    requires { at + 4 * length numbers.now ≤ length out.old }
    ensures { out.new ≡ sets out.old at (words numbers.now) }
{
    for (i, number) in numbers.iter().enumerate() {
        (*number).put(out, at + WORD * i);
    }
}

fn put_digital(out: &mut [u8], at: usize, flags: u8, severity: u32, duration: u32)
    requires { at + size_of Form.Digital ≤ length out.old }
    ensures { out.new ≡ sets out.old at (digital_bytes flags severity duration) }
{
    out[at] = flags;
    put_words(out, at + FLAGS, &[severity, duration]);
}

// An alarm's parts, as the match on its kind has them.
fn put_analog(
    out: &mut [u8],
    at: usize,
    flags: u8,
    g: Limits,
    s: Severities,
    period: u32,
    duration: u32,
)
    requires { at + size_of Form.Analog ≤ length out.old }
    ensures { out.new ≡ sets out.old at (analog_bytes flags g s period duration) }
{
    out[at] = flags;
    let numbers = [
        s.hh,
        s.h,
        s.l,
        s.ll,
        s.rocpos,
        s.rocneg,
        to_pattern(g.hh),
        to_pattern(g.h),
        to_pattern(g.l),
        to_pattern(g.ll),
        to_pattern(g.deadband),
        to_pattern(g.rocpos),
        to_pattern(g.rocneg),
        period,
        duration,
    ];
    put_words(out, at + FLAGS, &numbers);
}

// Writes an alarm's record and answers the offset past it.
fn put_record(out: &mut [u8], at: usize, alarm: Alarm) -> usize
    requires { at + length (record_bytes (form_of alarm.kind) alarm) ≤ length out.old }
    ensures value { result ≡ at + length (record_bytes (form_of alarm.kind) alarm) }
    ensures out_after { out.new ≡ sets out.old at (record_bytes (form_of alarm.kind) alarm) }
{
    let flags = alarm.flags;
    let duration = alarm.duration;
    match alarm.kind {
        Kind::Digital { severity } => {
            put_digital(out, at, flags, severity, duration);
            at + DIGITAL_SIZE
        }
        Kind::Analog {
            limits,
            severities,
            period,
        } => {
            put_analog(out, at, flags, limits, severities, period, duration);
            at + ANALOG_SIZE
        }
    }
}

// Writes the records of the alarms from place `first` to before `end` and answers the offset past them. The places are worked out from the
// count for this call, so no struct of them is plainer. That `end` is at most all places is a clause and no type: one for first and end
// would be made for this call alone.
fn put_records(
    out: &mut [u8],
    start: usize,
    form: Form,
    first: usize,
    end: usize,
    words: &[u64; SETTINGS_WORDS],
) -> usize
    requires end_le_all_most { end ≤ all_most }
    requires room { start + length (records_bytes form (slice first end (read_as form words.now))) ≤ length out.old }
    ensures value { result ≡ start + length (records_bytes form (slice first end (read_as form words.now))) }
    ensures out_after { out.new ≡ sets out.old start (records_bytes form (slice first end (read_as form words.now))) }
{
    let mut at = start;
    for index in first..end {
        let alarm = alarm_in(Place { index }.settings_in(words), form);
        at = put_record(out, at, alarm);
    }
    at
}

fn put_section(
    out: &mut [u8],
    at: usize,
    form: Form,
    first: usize,
    count: usize,
    words: &[u64; SETTINGS_WORDS],
) -> usize
    requires few { (first ≤ 12) × (count ≤ 12) }
    requires room { at + length (section_bytes form first count (read_as form words.now)) ≤ length out.old }
    ensures value { result ≡ at + length (section_bytes form first count (read_as form words.now)) }
    ensures out_after { out.new ≡ sets out.old at (section_bytes form first count (read_as form words.now)) }
{
    // `as` narrows: a count is at most 12
    out[at] = count as u8;
    put_records(out, at + 1, form, first, first + count, words)
}

// The length of the image of settings with these counts. A name of its own, so that callers read one clause and no sum.
fn image_size(good: GoodCounts) -> usize
    ensures { result ≡ size_of_image good.counts }
{
    COUNTS + good.sum_of(DIGITAL_SIZE, ANALOG_SIZE)
}

// Whether settings with these counts have an image of at most `len` bytes.
fn has_room(counts: Counts, len: usize) -> bool
    ensures { result ≡ has_room counts len }
{
    match good_counts(counts) {
        Some(good) => image_size(good) <= len,
        None => false,
    }
}

// Writes the image of the settings in a block.
fn write_block(words: &[u64; SETTINGS_WORDS], out: &mut [u8]) -> Result<usize, Refusal>
    ensures value { result ≡ written_of (settings_in words.now) (length out.old) }
    ensures out_after { out.new ≡ image_buffer (settings_in words.now) out.old }
{
    let counts = counts_in(words);
    if !has_room(counts, out.len()) {
        return Err(Reason::ImageTooLong.at(0));
    }
    let next = put_section(out, 0, Form::Digital, 0, counts.digital, words);
    let length = put_section(
        out,
        next,
        Form::Analog,
        counts.digital,
        counts.analog,
        words,
    );
    Ok(length)
}

// Fills the front of `out` with the image of a bank's settings, answers its length and leaves the rest, or refuses and leaves every byte.
pub fn write(words: &[u64], out: &mut [u8]) -> Result<usize, Refusal>
    ensures value { result ≡ write_of words.now (length out.old) }
    ensures out_after { out.new ≡ write_buffer words.now out.old }
{
    match block_in(words) {
        Some(block) => write_block(block, out),
        None => Err(Block::Settings.missing()),
    }
}
