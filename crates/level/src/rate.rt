// The rate, and the REAL that a sample stores.
ghost use Rattle.std.specs.Prelude.{◌≡◌};
ghost use Rattle.std.specs.Float.{binary32};
ghost use Rattle.std.specs.Float.Ieee.{of_bits, to_bits};
ghost use Rattle.settings.specs.Numbers.{reals, real_of, value_of, period_real, new_rate};

use settings::types::Reading;
use wire::real::{from_pattern, to_pattern};

// The REAL that a sample stores.
pub fn value_of(reading: Reading) -> f32
    ensures { result ≡ value_of reals (real_of reading) }
{
    match reading {
        Reading::Digital(_) => 0.0,
        Reading::Level(x) => x,
    }
}

fn period_real(period: u32) -> f32
    ensures { result ≡ period_real period }
{
    if period <= 16_777_216 {
        // no `From`: a u32 may lose digits as an f32, and up to here it loses none
        period as f32
    } else {
        16_777_216.0
    }
}

fn new_rate(period: u32, stored: f32, x: f32) -> f32
    ensures { result ≡ new_rate period stored x }
{
    if period == 0 {
        return 0.0;
    }
    (x - stored) * 1000.0 / period_real(period)
}

// The pattern of a new sample's rate, by the pattern of the stored one. Period, stored value and new value are of the
// settings, the state and the record, and no struct keeps them together, here and in `new_rate`.
pub fn rate_pattern(period: u32, stored: u32, x: f32) -> u32
    ensures { result ≡ to_bits binary32 (new_rate period (of_bits binary32 stored) x) }
{
    to_pattern(new_rate(period, from_pattern(stored), x))
}
