// One scan of one condition.
ghost use Rattle.std.specs.Prelude.{◌≡◌, ◌<◌};
ghost use Rattle.wire.specs.Internal.Words.{word_of};
ghost use Rattle.condition.specs.Internal.Outcome.{outcome};

use wire::bits::{is_set, word_of};
use wire::choice::choose;

// Of a condition's digit.
pub const ALARM: u32 = 1;

pub const UNACKED: u32 = 2;

// One scan of one condition. Of `digit`, bit 0 is in alarm and bit 1 unacknowledged. The result has these two anew, bit 2
// for the row of scans that met it, and bits 3 to 5 for acknowledged, returned and activated. A struct of the parameters would be made for
// one call alone.
pub fn condition(
    digit: u32,
    enabled: bool,
    met: bool,
    frees: bool,
    ready: bool,
    ack: bool,
    required: bool,
) -> u32
    ensures { (result ≡ word_of (outcome digit (record { enabled = enabled; met = met; frees = frees; ready = ready; ack = ack; required = required })))
        × (result < 64) }
{
    let alarm = is_set(digit, ALARM);
    let unacked = is_set(digit, UNACKED);
    let acknowledges = enabled & ack & unacked;
    let clears = !met & frees;
    let returns = enabled & alarm & clears;
    let activates = enabled & met & ready & !alarm;
    let alarm_after = activates | (enabled & !clears & alarm);
    let unacked_after = choose(activates, required, enabled & !ack & unacked);
    word_of([
        alarm_after,
        unacked_after,
        enabled & met,
        acknowledges,
        returns,
        activates,
    ])
}
