// The modes of an alarm.
ghost use Rattle.std.specs.Prelude.{◌≡◌, ◌%◌, ◌<◌, not, eqb};
ghost use Rattle.wire.specs.Bits.{bit};
ghost use Rattle.wire.specs.Internal.Words.{word_of};
ghost use Rattle.wire.specs.Internal.Places.{disabled_flag, suppressed_flag};
ghost use Rattle.condition.specs.Internal.Mode.{mode_bits};

use crate::bits::{
    IN_FAULT, OPER_DISABLE, OPER_ENABLE, OPER_SUPPRESS, OPER_UNSUPPRESS, PROG_DISABLE, PROG_ENABLE,
    PROG_SUPPRESS, PROG_UNSUPPRESS, RESET_COUNTS,
};
use crate::command::Command;
use wire::bits::{is_set, word_of};
use wire::places::{DISABLED, SUPPRESSED};

// One scan of an alarm's modes. Of `digit`, bit 0 is disabled and bit 1 suppressed. The result has these anew, InFaulted in
// bit 2, and in bits 3 to 7 disabled, enabled, suppressed, unsuppressed and count reset as events; four more are free. Most scans
// command nothing, and leave the modes as they are.
pub fn modes(digit: u32, command: Command) -> u32
    ensures { (result ≡ word_of (mode_bits (bit digit disabled_flag) (bit digit suppressed_flag) command.word command.previous)) × (result < 4096) }
{
    let word = command.word;
    if word == 0 {
        return digit % 4;
    }
    let disabled = is_set(digit, DISABLED);
    let suppressed = is_set(digit, SUPPRESSED);
    let enables = is_set(word, PROG_ENABLE) | is_set(word, OPER_ENABLE);
    let disables = is_set(word, PROG_DISABLE) | is_set(word, OPER_DISABLE);
    let suppresses = is_set(word, PROG_SUPPRESS) | is_set(word, OPER_SUPPRESS);
    let unsuppresses = is_set(word, PROG_UNSUPPRESS) | is_set(word, OPER_UNSUPPRESS);
    let disabled_after = !enables & (disables | disabled);
    let suppressed_after = !unsuppresses & (suppresses | suppressed);
    word_of([
        disabled_after,
        suppressed_after,
        is_set(word, IN_FAULT),
        disabled_after & !disabled,
        !disabled_after & disabled,
        suppressed_after & !suppressed,
        !suppressed_after & suppressed,
        command.rises(RESET_COUNTS),
        false,
        false,
        false,
        false,
    ])
}

// Whether modes say that the alarm is enabled.
pub fn is_enabled(modes: u32) -> bool
    ensures { result ≡ not (eqb (modes % 2) 1) }
{
    !is_set(modes, DISABLED)
}
