// What a checked record does to the alarm at a place. The buffer goes with an offset as in the writer of event records (crates/event).
ghost use Rattle.std.specs.Prelude.{◌≡◌, ◌+◌, ◌≤◌, length};
ghost use Rattle.std.proofs.lemmas.List.Edits.{sets};
ghost use Rattle.bank.specs.Internal.Blocks.{SameWords};
ghost use Rattle.sweep.specs.Internal.Part.{part_step, part_states, part_log, part_marks, log_of, marks_of};

use crate::part::{Part, Scan};
use analog::step::analog_step;
use bank::blocks::Kept;
use digital::step::digital_step;
use event::source::Source;
use event::write::put_events;
use layout::half::lower;
use layout::sizes::{MARKS_WORDS, STATES_WORDS};
use marks::mark::{mark_alarm, required_in};
use scan_record::part::{ANALOG_WORD, DIGITAL_WORD};
use settings::types::{Form, Reading};
use state::offsets::FLAGS;
use wire::bits::is_set;
use wire::number::LittleEndian;
use wire::places::SUPPRESSED;

// Steps the alarm with its part of the record, and answers its event word.
#[inline(always)]
fn step_form(scan: &Scan<'_>, part: Part<'_>, states: &mut [u64; STATES_WORDS]) -> u32
    ensures value { result ≡ (part_step scan.now part.entry states.old).events }
    ensures states_after { states.new ≡ part_states scan.now part.entry states.old }
{
    let settings = part.place.settings_in(scan.settings);
    // cut out here, and of the marks below: a function that hands out a `&mut` part of its parameter does not prove
    let (_, behind) = states.split_at_mut(part.place.state_at());
    let Some(state) = behind.first_chunk_mut() else {
        unreachable!()
    };
    let bytes = part.bytes;
    let at = part.at;
    match part.form {
        Form::Digital => {
            let reading = Reading::Digital(bytes[at] == 1);
            let word = u32::get(bytes, at + DIGITAL_WORD);
            digital_step(settings, state, reading, word, scan.time)
        }
        Form::Analog => {
            let reading = Reading::Level(f32::get(bytes, at));
            let word = u32::get(bytes, at + ANALOG_WORD);
            analog_step(settings, state, reading, word, scan.time)
        }
    }
}

// Marks the events of an alarm that was stepped in its counts and stamps. Most alarms have none.
#[inline(always)]
fn mark_place(
    scan: &Scan<'_>,
    part: Part<'_>,
    states: &[u64; STATES_WORDS],
    marks: &mut [u64; MARKS_WORDS],
    events: u32,
)
    ensures { marks.new ≡ marks_of scan.now part.entry states.now events marks.old }
{
    if events == 0 {
        return;
    }
    let Some(starts) = part.place.state_in(states).last_chunk() else {
        unreachable!()
    };
    let (_, behind) = marks.split_at_mut(part.place.mark_at());
    let Some(own) = behind.first_chunk_mut() else {
        unreachable!()
    };
    let required = required_in(part.place.settings_in(scan.settings), part.form);
    mark_alarm(own, required, starts, events, scan.time);
}

// Writes the events of an alarm that was stepped, and answers the offset past them.
#[inline(always)]
fn log_place(
    scan: &Scan<'_>,
    part: Part<'_>,
    states: &[u64; STATES_WORDS],
    out: &mut [u8],
    used: usize,
    events: u32,
) -> usize
    requires { used + length (log_of scan.now part states.now events) ≤ length out.old }
    ensures value { result ≡ used + length (log_of scan.now part.entry states.now events) }
    ensures out_after { out.new ≡ sets out.old used (log_of scan.now part.entry states.now events) }
{
    if events == 0 {
        return used;
    }
    let flags = lower(part.place.state_in(states)[FLAGS]);
    let source = Source {
        number: part.place.number(),
        form: part.form,
        settings: part.place.settings_in(scan.settings),
        suppressed: is_set(flags, SUPPRESSED),
        time: scan.time,
    };
    put_events(out, used, &source, events)
}

// Steps the alarm, writes its events to `out` from `used` on, marks them, and answers the offset past them. Its parameters are
// of a scan, an alarm, a bank and a buffer: a struct of these would be made anew for each alarm.
#[inline(always)]
pub fn step_place(
    scan: &Scan<'_>,
    part: Part<'_>,
    kept: &mut Kept<'_>,
    out: &mut [u8],
    used: usize,
) -> usize
    requires { used + length (part_log scan.now part kept.old.states.now) ≤ length out.old }
    ensures value { result ≡ used + length (part_log scan.now part.entry kept.old.states.now) }
    ensures same { SameWords kept.old kept.new }
    ensures states_after { kept.new.states.now ≡ part_states scan.now part.entry kept.old.states.now }
    ensures marks_after { kept.new.marks.now ≡ part_marks scan.now part.entry kept.old.states.now kept.old.marks.now }
    ensures out_after { out.new ≡ sets out.old used (part_log scan.now part.entry kept.old.states.now) }
{
    let events = step_form(scan, part, kept.states);
    mark_place(scan, part, kept.states, kept.marks, events);
    log_place(scan, part, kept.states, out, used, events)
}
