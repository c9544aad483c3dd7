// The conditions of an analog alarm, of every number form: met and freed come as words of bits, one at every third place.
ghost use Rattle.std.specs.Prelude.{◌≡◌, ◌+◌, ◌*◌, ◌/◌, ◌<◌, get_or, set};
ghost use Rattle.layout.specs.Internal.Words.{pair_of};
ghost use Rattle.analog.specs.Internal.Packed.{ready_in, SameReady, flags_after};
ghost use Rattle.analog.specs.Internal.Inputs.{decided_by, begins_by};
ghost use Rattle.state.specs.Internal.Starts.{keep_starts};
ghost use Rattle.wire.specs.Internal.Places.{condition_unit, six_range};

use crate::inputs::Inputs;
use crate::sides::sides_of;
use crate::starts::begin_all;
use condition::command::Command;
use condition::mode::is_enabled;
use condition::row::row_lasted;
use decision::decide::{Cells, decide};
use layout::half::{lower, pair, upper};
use layout::sizes::STATE_USED;
use state::offsets::{FLAGS, HIGH, LOW};
use wire::bits::{is_set, only_in, spread_of, word_of};
use wire::places::{CONDITIONS, H, HH, HIGH_RUN, L, LL, LOW_RUN, SIX, THREE_BITS};

// The conditions that would be due if they are met.
fn ready_in(flags: u32, high: u64, low: u64, duration: u32, time: u64) -> u32
    ensures { (result ≡ ready_in flags high low duration time) × (result < 65536) }
{
    let above = row_lasted(is_set(flags, HIGH_RUN), high, duration, time);
    let below = row_lasted(is_set(flags, LOW_RUN), low, duration, time);
    let h = above | (is_set(flags, HH) | is_set(flags, H));
    let l = below | (is_set(flags, L) | is_set(flags, LL));
    spread_of([h, h, l, l, true, true])
}

// The same, or none where no condition is met and not in alarm: only such a one asks whether it is due.
fn due_in(state: &[u64; STATE_USED], flags: u32, met: u32, duration: u32, time: u64) -> u32
    ensures { SameReady flags met result (ready_in flags (get_or state.now 3 0) (get_or state.now 4 0) duration time) }
{
    if only_in(met & SIX, flags / HH) == 0 {
        return 0;
    }
    ready_in(flags, state[HIGH], state[LOW], duration, time)
}

// The flags after a scan.
fn flags_after(modes: u32, met: u32, six: Cells) -> u32
    requires { six.kept < six_range }
    ensures { result ≡ flags_after modes met six }
{
    let enabled = is_enabled(modes);
    let sides = sides_of(met);
    modes % THREE_BITS
        + THREE_BITS * word_of([enabled, enabled & sides.high, enabled & sides.low])
        + CONDITIONS * six.kept
}

// Ends the scan of an alarm: stores starts, flags and command word, and answers the events.
#[inline(always)]
pub fn finish(state: &mut [u64; STATE_USED], inputs: Inputs) -> u32
    ensures value { result ≡ inputs.modes / 8 + condition_unit * (decided_by state.old inputs).events }
    ensures state_after { state.new ≡ set (keep_starts (begins_by state.old inputs) inputs.time 3 state.old) 0
        (pair_of (flags_after inputs.modes inputs.met (decided_by state.old inputs)) inputs.word) }
{
    let Inputs {
        modes,
        met,
        word,
        time,
        ..
    } = inputs;
    let first = state[FLAGS];
    let flags = lower(first);
    let enabled = is_enabled(modes);
    let ready = due_in(state, flags, met, inputs.duration, time);
    let previous = upper(first);
    let acks = Command { word, previous }.ack_word();
    let six = decide(
        flags,
        enabled,
        met,
        inputs.frees,
        ready,
        acks,
        inputs.required,
    );
    let Some(starts) = state.last_chunk_mut() else {
        unreachable!()
    };
    begin_all(starts, flags, enabled, met, time);
    state[FLAGS] = pair(flags_after(modes, met, six), word);
    modes / THREE_BITS + CONDITIONS * six.events
}
