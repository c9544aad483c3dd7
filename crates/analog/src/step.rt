// One scan of an analog alarm.
ghost use Rattle.std.specs.Prelude.{◌≡◌};
ghost use Rattle.settings.specs.Internal.Reals.{real_analog};
ghost use Rattle.settings.specs.declared.types.Form.{Form};
ghost use Rattle.wire.specs.Internal.Words.{word_of, spread};
ghost use Rattle.layout.specs.Internal.Words.{alarm_in};
ghost use Rattle.settings.specs.Numbers.{reals, real_of, analog_reals};
ghost use Rattle.level.specs.Internal.Bits.{frees_bits};
ghost use Rattle.state.specs.Internal.State.{state_in, state_words};
ghost use Rattle.state.specs.Internal.Held.{real_patterns};
ghost use Rattle.analog.specs.Internal.Packed.{SameFrees};
ghost use Rattle.analog.specs.Internal.Analog.{analog_step};

use crate::finish::finish;
use crate::inputs::Inputs;
use condition::command::Command;
use condition::mode::{is_enabled, modes};
use layout::half::{lower, upper, upper_real};
use layout::read::{duration_in, flags_in, limits_in, period_in};
use layout::sizes::{ALARM_WORDS, STATE_USED};
use level::level::{frees_word, met_word};
use level::rate::value_of;
use sample::sample::{SampleWords, resample};
use settings::types::{Limits, Reading};
use state::offsets::{FLAGS, SAMPLE, SAMPLE_TIME};
use wire::bits::{is_set, only_in};
use wire::places::{ANALOG_ACK_REQUIRED, HH, SAMPLED, SIX};

// The first word of an alarm at rest, flags and last command word: only a sample is stored. `as`: a constant calls no `From`.
const RESTING: u64 = SAMPLED as u64;

// The conditions that the reading frees, or none where no condition is in alarm and not met: only such a one asks.
fn frees_in(flags: u32, met: u32, limits: Limits, reading: Reading) -> u32
    ensures { SameFrees flags met result (word_of (spread (frees_bits reals (analog_reals 0 0 limits 0) (real_of reading)))) }
{
    if only_in((flags / HH) & SIX, met) == 0 {
        return 0;
    }
    frees_word(limits, reading)
}

// Steps an alarm with its reading, and answers its events.
#[inline(always)]
pub fn analog_step(
    settings: &[u64; ALARM_WORDS],
    state: &mut [u64; STATE_USED],
    reading: Reading,
    word: u32,
    time: u64,
) -> u32
    ensures value { result ≡ (analog_step reals real_patterns (real_analog (alarm_in Form.Analog settings.now 0))
        (state_in state.old 0) reading word time).events }
    ensures state_after { state.new ≡ state_words (analog_step reals real_patterns (real_analog (alarm_in Form.Analog settings.now 0))
        (state_in state.old 0) reading word time).state }
{
    let first = state[FLAGS];
    let flags = lower(first);
    let previous = upper(first);
    let m = modes(flags, Command { word, previous });
    let enabled = is_enabled(m);
    let period = period_in(settings);
    let stored = SampleWords {
        pair: state[SAMPLE],
        time: state[SAMPLE_TIME],
    };
    let sample = resample(stored, flags, enabled, period, value_of(reading), time);
    state[SAMPLE] = sample.pair;
    state[SAMPLE_TIME] = sample.time;
    let set = flags_in(settings);
    let limits = limits_in(settings);
    let met = met_word(set, limits, period, reading, upper_real(sample.pair));
    if (word == 0) & (first == RESTING) & (met == 0) {
        return 0;
    }
    finish(
        state,
        Inputs {
            modes: m,
            met,
            frees: frees_in(flags, met, limits, reading),
            duration: duration_in(settings),
            required: is_set(u32::from(set), ANALOG_ACK_REQUIRED),
            word,
            time,
        },
    )
}
