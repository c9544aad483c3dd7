// The rules that an analog alarm's numbers obey: their ranges, and the order of its levels.
ghost use Rattle.std.specs.Prelude.{◌≡◌, true};
ghost use Rattle.std.specs.Bool.{then_some};
ghost use Rattle.std.specs.Option.{option_map_or, option_zip};
ghost use Rattle.std.specs.Float.Ieee.{lt};
ghost use Rattle.settings.specs.Condition.{on, HH, H, L, LL};
ghost use Rattle.settings.specs.Numbers.{reals, real_limit};
ghost use Rattle.settings.specs.Rules.{limits_in_range, in_range, rising, banded, apart};

use crate::types::Limits;
use wire::bits::is_set;
use wire::places::{H_ENABLED, HH_ENABLED, L_ENABLED, LL_ENABLED};
use wire::real::is_bounded;

// The longest ROCPeriod: an hour, in milliseconds.
pub const LONGEST_PERIOD: u32 = 3_600_000;

// The longest MinDuration: the highest DINT.
pub const LONGEST_DURATION: u32 = 0x7FFF_FFFF;

fn limits_in_range(g: Limits) -> bool
    ensures { result ≡ limits_in_range reals (real_limit g) g.deadband }
{
    let levels = is_bounded(g.hh) & is_bounded(g.h) & is_bounded(g.l) & is_bounded(g.ll);
    let others = is_bounded(g.deadband) & is_bounded(g.rocpos) & is_bounded(g.rocneg);
    levels & others & (0.0 <= g.deadband) & (0.0 <= g.rocpos) & (0.0 <= g.rocneg)
}

// The range rules, refusal 4.
pub fn numbers_in_range(g: Limits, period: u32, duration: u32) -> bool
    ensures { result ≡ in_range reals (real_limit g) g.deadband period duration }
{
    limits_in_range(g) & (period <= LONGEST_PERIOD) & (duration <= LONGEST_DURATION)
}

// The limits of an analog alarm's levels; a level that the flags do not enable has none.
#[derive(Clone, Copy)]
struct Levels {
    hh: Option<f32>,
    h: Option<f32>,
    l: Option<f32>,
    ll: Option<f32>,
}

// The levels by the flags' four lowest bits.
fn levels_of(flags: u8, g: Limits) -> Levels
    ensures hh { result.hh ≡ then_some (on flags HH) g.hh }
    ensures h { result.h ≡ then_some (on flags H) g.h }
    ensures l { result.l ≡ then_some (on flags L) g.l }
    ensures ll { result.ll ≡ then_some (on flags LL) g.ll }
{
    let on = u32::from(flags);
    Levels {
        hh: is_set(on, HH_ENABLED).then_some(g.hh),
        h: is_set(on, H_ENABLED).then_some(g.h),
        l: is_set(on, L_ENABLED).then_some(g.l),
        ll: is_set(on, LL_ENABLED).then_some(g.ll),
    }
}

// Whether a lower and an upper level stand in order, which counts only where both are enabled.
fn in_order(lower: Option<f32>, upper: Option<f32>) -> bool
    ensures { result ≡ option_map_or (λ p. lt p.0 p.1) (option_zip lower upper) true }
{
    match (lower, upper) {
        (Some(lower), Some(upper)) => lower < upper,
        _ => true,
    }
}

// Each pair by itself: six tests are plainer than a walk over pairs.
fn levels_rise(flags: u8, g: Limits) -> bool
    ensures { result ≡ rising reals flags (real_limit g) }
{
    let Levels { hh, h, l, ll } = levels_of(flags, g);
    in_order(ll, l)
        & in_order(ll, h)
        & in_order(ll, hh)
        & in_order(l, h)
        & in_order(l, hh)
        & in_order(h, hh)
}

fn sides_apart(flags: u8, g: Limits) -> bool
    ensures { result ≡ banded reals flags (real_limit g) g.deadband }
{
    let Levels { hh, h, l, ll } = levels_of(flags, g);
    let Some((high, low)) = h.or(hh).zip(l.or(ll)) else {
        return true;
    };
    (low < high - g.deadband) & (low + g.deadband < high)
}

// The rules on the order of levels and on Deadband, refusal 5. It and what it calls take flags and limits, as the definitions do; `levels_of`
// joins the two where a rule asks for both.
pub fn levels_apart(flags: u8, g: Limits) -> bool
    ensures { result ≡ apart reals flags (real_limit g) g.deadband }
{
    levels_rise(flags, g) & sides_apart(flags, g)
}
