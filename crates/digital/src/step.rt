// One scan of a digital alarm.
ghost use Rattle.std.specs.Prelude.{◌≡◌, ◌*◌, ◌/◌, ◌%◌, eqb, set};
ghost use Rattle.settings.specs.declared.types.Form.{Form};
ghost use Rattle.layout.specs.Internal.Words.{alarm_in};
ghost use Rattle.state.specs.Internal.State.{state_in, state_words};
ghost use Rattle.state.specs.Internal.Starts.{keep_start};
ghost use Rattle.digital.specs.Internal.Digital.{digital_step, rest_flags};
ghost use Rattle.wire.specs.Internal.Places.{condition_unit};

use condition::command::Command;
use condition::mode::{is_enabled, modes};
use condition::outcome::condition;
use condition::row::row_lasted;
use layout::half::{lower, pair, upper};
use layout::read::{duration_in, flags_in};
use layout::sizes::{ALARM_WORDS, STATE_USED};
use level::level::is_bit;
use settings::types::Reading;
use state::offsets::{FLAGS, STARTS};
use wire::bits::is_set;
use wire::choice::choose;
use wire::places::{
    ACK_REQUIRED, CONDITION, CONDITIONS, HH, HH_ROW, HH_UNACKED, LATCHED, THREE_BITS,
};

// Stores flags and command word, and the start of the row where it begins. Without a branch: that a row begins can't be foreseen.
fn keep(state: &mut [u64; STATE_USED], first: u64, begins: bool, time: u64)
    ensures { state.new ≡ set (keep_start begins time 5 state.old) 0 first }
{
    state[STARTS] = choose(begins, time, state[STARTS]);
    state[FLAGS] = first;
}

// Of the first word, whose lower half are the flags and whose upper half is the last command word: in alarm, and its row goes on.
// `as`: a constant calls no `From`.
const IN_ALARM: u64 = (HH + HH_ROW) as u64;

const UNACKED: u64 = HH_UNACKED as u64;

// Whether the first word says no more than these, in alarm just where the condition is met: a scan with no command leaves it as it is.
fn rests(first: u64, met: bool) -> bool
    ensures { result ≡ eqb first (rest_flags met (first / (2 * condition_unit) % 2)) }
{
    let unacked = UNACKED * (first / UNACKED % 2);
    if met {
        first == IN_ALARM + unacked
    } else {
        first == unacked
    }
}

// Steps an alarm with its reading, and answers its events.
#[inline(always)]
pub fn digital_step(
    settings: &[u64; ALARM_WORDS],
    state: &mut [u64; STATE_USED],
    reading: Reading,
    word: u32,
    time: u64,
) -> u32
    ensures value { result ≡ (digital_step (alarm_in Form.Digital settings.now 0) (state_in state.old 0) reading word time).events }
    ensures state_after { state.new ≡ state_words (digital_step (alarm_in Form.Digital settings.now 0) (state_in state.old 0) reading word time).state }
{
    let first = state[FLAGS];
    let set = u32::from(flags_in(settings));
    let met = is_bit(is_set(set, CONDITION), reading);
    if (word == 0) & rests(first, met) {
        return 0;
    }
    let begun = state[STARTS];
    let flags = lower(first);
    let previous = upper(first);
    let command = Command { word, previous };
    let m = modes(flags, command);
    let enabled = is_enabled(m);
    let frees = !is_set(set, LATCHED) | command.resets();
    let on = is_set(flags, HH_ROW);
    let ready = row_lasted(on, begun, duration_in(settings), time);
    let ack = command.acks_all();
    let c = condition(
        flags / HH,
        enabled,
        met,
        frees,
        ready,
        ack,
        is_set(set, ACK_REQUIRED),
    );
    let kept = pair(m % THREE_BITS + CONDITIONS * (c % THREE_BITS), word);
    keep(state, kept, (enabled & met) & !on, time);
    m / THREE_BITS + CONDITIONS * (c / THREE_BITS)
}
