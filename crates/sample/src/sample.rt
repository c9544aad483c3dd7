// The rate sample.
ghost use Rattle.std.specs.Prelude.{◌≡◌, cond, ◌&&◌};
ghost use Rattle.std.specs.Float.{binary32};
ghost use Rattle.std.specs.Float.Ieee.{of_bits, to_bits};
ghost use Rattle.wire.specs.Bits.{bit};
ghost use Rattle.wire.specs.Internal.Places.{sampled_flag};
ghost use Rattle.layout.specs.Internal.Words.{lower_of, upper_of};
ghost use Rattle.settings.specs.Numbers.{new_rate};
ghost use Rattle.sample.specs.Internal.Sample.{stays_in, rate_in, sample_in, sampled_in};

use layout::half::{lower, pair};
use level::rate::rate_pattern;
use wire::bits::is_set;
use wire::choice::choose;
use wire::places::SAMPLED;
use wire::real::to_pattern;

// Whether the stored sample stays.
fn stays_in(flags: u32, period: u32, sampled: u64, time: u64) -> bool
    ensures { result ≡ stays_in flags period sampled time }
{
    is_set(flags, SAMPLED) & (time.saturating_sub(sampled) < u64::from(period))
}

// The pattern of a rate that does not stay: from the stored value to a new one, or 0 where there is none. It is called once,
// and a struct of period, stored pair and x would be taken apart at once.
fn new_rate(flags: u32, enabled: bool, period: u32, stored: u64, x: f32) -> u32
    ensures { result ≡ cond (enabled && bit flags sampled_flag) (to_bits binary32 (new_rate period (of_bits binary32 (lower_of stored)) x)) 0 }
{
    if enabled & is_set(flags, SAMPLED) {
        return rate_pattern(period, lower(stored), x);
    }
    0
}

// The words of a rate sample: its value and the rate by their patterns, in the lower and the upper half of one, and its time.
#[derive(Clone, Copy)]
pub struct SampleWords {
    pub pair: u64,
    pub time: u64,
}

// The sample after a scan, with the rate. Most scans keep it.
pub fn resample(
    stored: SampleWords,
    flags: u32,
    enabled: bool,
    period: u32,
    x: f32,
    time: u64,
) -> SampleWords
    ensures pair { result.pair ≡ sample_in flags enabled period stored.pair stored.time x time }
    ensures rate { upper_of result.pair ≡ rate_in flags enabled period stored.pair stored.time x time }
    ensures time { result.time ≡ sampled_in flags period stored.time time }
{
    let stays = stays_in(flags, period, stored.time, time);
    if enabled & stays {
        return stored;
    }
    let rate = new_rate(flags, enabled, period, stored.pair, x);
    let value = choose(stays, lower(stored.pair), to_pattern(x));
    SampleWords {
        pair: pair(value, rate),
        time: choose(stays, stored.time, time),
    }
}
