// One scan of a bank, in place. Hints on inlining are for speed: a call for each alarm, and the frame of the copies that a short buffer needs,
// cost more than the code (docs/DECISIONS.md, 47).
ghost use Rattle.std.specs.Prelude.{◌≡◌, length};
ghost use Rattle.bank.specs.Internal.Words.{words_in, bank_in};
ghost use Rattle.bank.specs.Internal.Blocks.{kept_words, SameWords};
ghost use Rattle.sweep.specs.Internal.Sweep.{Ready, most_bytes};
ghost use Rattle.scan.specs.Internal.Scan.{event_buffer};
ghost use Rattle.scan.specs.Internal.Words.{checked_answer, checked_words, checked_out, bank_answer, bank_words, answer_of, scanned_words, buffer_of};

use bank::blocks::Kept;
use event::write::EVENT_SIZE;
use layout::block::{Block, block_in, counts_in};
use layout::sizes::{LAST_TIME, SETTINGS_WORDS};
use scan_record::check::check_record;
use settings::counts::{GoodCounts, MOST};
use settings::refusals::{Reason, Refusal};
use sweep::alarms::scan_alarms;

// Bytes of events that an alarm has at most in a scan: 5 events of a digital one, 15 of an analog one.
const DIGITAL_MOST: usize = 5 * EVENT_SIZE;

const ANALOG_MOST: usize = 15 * EVENT_SIZE;

// Bytes that suffice for the events of every scan.
pub const EVENTS_ENOUGH: usize = MOST * (DIGITAL_MOST + ANALOG_MOST);

// Bytes of events that a scan of so many alarms has at most. A name of its own, so that callers read one clause and no sum.
fn most_bytes(good: GoodCounts) -> usize
    ensures { result ≡ most_bytes good.counts }
{
    good.sum_of(DIGITAL_MOST, ANALOG_MOST)
}

// Runs a checked record where the buffer may be too short: on copies, with a buffer that suffices, and takes them over if it was
// not. A refused scan writes nothing.
#[cold]
#[inline(never)]
fn scan_short(
    settings: &[u64; SETTINGS_WORDS],
    kept: &mut Kept<'_>,
    bytes: &[u8],
    out: &mut [u8],
    good: GoodCounts,
) -> Result<usize, Refusal>
    requires { Ready (kept_words settings.now kept.old) bytes.now good.counts }
    ensures value { result ≡ checked_answer (kept_words settings.now kept.old) bytes.now (length out.old) }
    ensures same { SameWords kept.old kept.new }
    ensures states_after { kept.new.states.now ≡ (checked_words (kept_words settings.now kept.old) bytes.now (length out.old)).states }
    ensures marks_after { kept.new.marks.now ≡ (checked_words (kept_words settings.now kept.old) bytes.now (length out.old)).marks }
    ensures out_after { out.new ≡ checked_out (kept_words settings.now kept.old) bytes.now out.old }
{
    let mut states = *kept.states;
    let mut marks = *kept.marks;
    let mut stepped = Kept {
        states: &mut states,
        marks: &mut marks,
    };
    let mut events = [0; EVENTS_ENOUGH];
    let used = scan_alarms(settings, &mut stepped, bytes, &mut events, good);
    if out.len() < used {
        return Err(Reason::EventsTooLong.at(0));
    }
    *kept.states = *stepped.states;
    *kept.marks = *stepped.marks;
    out[..used].copy_from_slice(&events[..used]);
    Ok(used / EVENT_SIZE)
}

// Checks a record and runs it on a bank.
#[inline(always)]
fn scan_bank(
    settings: &[u64; SETTINGS_WORDS],
    kept: &mut Kept<'_>,
    bytes: &[u8],
    out: &mut [u8],
) -> Result<usize, Refusal>
    ensures value { result ≡ bank_answer (kept_words settings.now kept.old) bytes.now (length out.old) }
    ensures same { SameWords kept.old kept.new }
    ensures states_after { kept.new.states.now ≡ (bank_words (kept_words settings.now kept.old) bytes.now (length out.old)).states }
    ensures marks_after { kept.new.marks.now ≡ (bank_words (kept_words settings.now kept.old) bytes.now (length out.old)).marks }
    ensures out_after { out.new ≡ event_buffer (bank_in (kept_words settings.now kept.old)) bytes.now out.old }
{
    let counts = counts_in(settings);
    check_record(bytes, counts, kept.states[LAST_TIME])?;
    let good = GoodCounts { counts };
    if out.len() < most_bytes(good) {
        return scan_short(settings, kept, bytes, out, good);
    }
    let used = scan_alarms(settings, kept, bytes, out, good);
    Ok(used / EVENT_SIZE)
}

// Runs one scan in place: fills the front of `out` with its events and answers how many they are, or refuses and leaves every word and byte.
// The three blocks come one by one, as the exported calls are lent them: before their lengths are looked at they have nothing in common.
// They are tested here, since no function can hand out arrays of several `&mut` parameters.
#[inline(always)]
pub fn scan(
    settings: &[u64],
    states: &mut [u64],
    marks: &mut [u64],
    bytes: &[u8],
    out: &mut [u8],
) -> Result<usize, Refusal>
    ensures value { result ≡ answer_of (words_in settings.now states.old marks.old) bytes.now
        (length out.old) }
    ensures states_after { states.new ≡ (scanned_words (words_in settings.now states.old marks.old)
        bytes.now (length out.old)).states }
    ensures marks_after { marks.new ≡ (scanned_words (words_in settings.now states.old marks.old)
        bytes.now (length out.old)).marks }
    ensures out_after { out.new ≡ buffer_of (words_in settings.now states.old marks.old) bytes.now
        out.old }
{
    let Some(settings) = block_in(settings) else {
        return Err(Block::Settings.missing());
    };
    let Some(states) = states.as_mut_array() else {
        return Err(Block::States.missing());
    };
    let Some(marks) = marks.as_mut_array() else {
        return Err(Block::Marks.missing());
    };
    scan_bank(settings, &mut Kept { states, marks }, bytes, out)
}
