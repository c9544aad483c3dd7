// When the runs of both sides and the rows of the six conditions began.
ghost use Rattle.std.specs.Prelude.{◌≡◌};
ghost use Rattle.wire.specs.Bits.{bit};
ghost use Rattle.state.specs.Internal.Starts.{keep_starts};
ghost use Rattle.analog.specs.Internal.Packed.{row_begins, all_begin};

use crate::sides::sides_of;
use state::begin::begin_each;
use state::offsets::STARTS_WORDS;
use wire::bits::{is_set, only_in};
use wire::places::{
    AT_H, AT_HH, AT_L, AT_LL, AT_ROCNEG, AT_ROCPOS, HH_ROW, HIGH_RUN, LOW_RUN, every,
};

// The rows that begin, one at every third bit.
fn rows_begin(flags: u32, enabled: bool, met: u32) -> u32
    ensures { (bit result 0 ≡ row_begins flags enabled met 0) × (bit result 3 ≡ row_begins flags enabled met 1) ×
        (bit result 6 ≡ row_begins flags enabled met 2) × (bit result 9 ≡ row_begins flags enabled met 3) ×
        (bit result 12 ≡ row_begins flags enabled met 4) × (bit result 15 ≡ row_begins flags enabled met 5) }
{
    only_in(met & every(enabled), flags / HH_ROW)
}

// The starts of both sides and of the six conditions. Most scans begin none. Flags, `enabled` and `met` come from the state, the modes
// and the reading, and no struct keeps them together, here and above.
pub fn begin_all(starts: &mut [u64; STARTS_WORDS], flags: u32, enabled: bool, met: u32, time: u64)
    ensures { starts.new ≡ keep_starts (all_begin flags enabled met) time 0 starts.old }
{
    let begins = rows_begin(flags, enabled, met);
    let sides = sides_of(met);
    let high = enabled & sides.high & !is_set(flags, HIGH_RUN);
    let low = enabled & sides.low & !is_set(flags, LOW_RUN);
    if (begins == 0) & !high & !low {
        return;
    }
    let all = [
        high,
        low,
        is_set(begins, AT_HH),
        is_set(begins, AT_H),
        is_set(begins, AT_L),
        is_set(begins, AT_LL),
        is_set(begins, AT_ROCPOS),
        is_set(begins, AT_ROCNEG),
    ];
    begin_each(starts, all, time);
}
