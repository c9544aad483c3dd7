// The words of an alarm: its count reset stamp, then those of its conditions.
ghost use Rattle.std.specs.Prelude.{◌≡◌};
ghost use Rattle.settings.specs.Alarm.{ack_required};
ghost use Rattle.layout.specs.Internal.Words.{alarm_in};
ghost use Rattle.marks.specs.Internal.Marks.{mark_conditions, mark_alarm};

use crate::words::{CONDITION_WORDS, Change, mark_condition};
use layout::read::flags_in;
use layout::sizes::{ALARM_WORDS, MARK_WORDS};
use settings::types::Form;
use wire::bits::is_set;
use wire::choice::choose;
use wire::places::{
    ACK_REQUIRED, ANALOG_ACK_REQUIRED, CONDITION_BITS, CONDITIONS, COUNT_RESET, SIX,
};

// Where the count reset stamp stands, and the words of the first condition.
pub const RESET_STAMP: usize = 0;

pub const FIRST_CONDITION: usize = 1;

// The conditions that words are kept for.
pub const MARKED: usize = 6;

// What a one counts past the three bits of each of the six: bits of an event word from there on are no condition's.
const BEHIND_SIX: u32 = 0o1000000;

// AckRequired, from the alarm's settings.
pub fn required_in(settings: &[u64; ALARM_WORDS], form: Form) -> bool
    ensures { result ≡ ack_required (alarm_in form settings.now 0).kind (alarm_in form settings.now 0).flags }
{
    let flags = u32::from(flags_in(settings));
    match form {
        Form::Digital => is_set(flags, ACK_REQUIRED),
        Form::Analog => is_set(flags, ANALOG_ACK_REQUIRED),
    }
}

// Marks what a scan did to those of the six conditions that have events, or to all six if the counts are reset. Few have any, so it goes
// from one of these to the next; a `while`, since std has no iterator over set bits, and `as` widens. A struct of what both functions take
// would be made for one call: each condition gets a `Change` of its own.
fn mark_conditions(
    marks: &mut [u64; MARK_WORDS],
    required: bool,
    starts: &[u64; MARKED],
    events: u32,
    time: u64,
)
    ensures { marks.new ≡ mark_conditions required starts.now events time 1 6 marks.old }
{
    let reset = is_set(events, COUNT_RESET);
    let rest = events / CONDITIONS;
    // three bits for each condition from `next` on: of one that is to be marked, one of them is set
    let mut left = choose(reset, SIX, rest % BEHIND_SIX);
    let mut next = 0;
    while left != 0 {
        let skipped = left.trailing_zeros() / CONDITION_BITS;
        let place = next + skipped as usize;
        // in each turn: `as_chunks_mut` says nothing of what the whole becomes, and no function that hands out a `&mut` part proves
        let (_, behind) = marks.split_at_mut(FIRST_CONDITION + CONDITION_WORDS * place);
        let Some(words) = behind.first_chunk_mut() else {
            unreachable!()
        };
        let change = Change {
            reset,
            events: rest >> (CONDITION_BITS as usize * place),
            required,
            start: starts[place],
            time,
        };
        mark_condition(words, change);
        left >>= CONDITION_BITS * (skipped + 1);
        next = place + 1;
    }
}

// Marks what a scan did to an alarm, from when the rows of its conditions began and its event word.
pub fn mark_alarm(
    marks: &mut [u64; MARK_WORDS],
    required: bool,
    starts: &[u64; MARKED],
    events: u32,
    time: u64,
)
    ensures { marks.new ≡ mark_alarm required starts.now events time 0 marks.old }
{
    let reset = is_set(events, COUNT_RESET);
    marks[RESET_STAMP] = choose(reset, time, marks[RESET_STAMP]);
    mark_conditions(marks, required, starts, events, time);
}
