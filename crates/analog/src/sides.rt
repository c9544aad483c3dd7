// The levels of the two sides, in a word with a bit for each of the six conditions.
ghost use Rattle.std.specs.Prelude.{◌≡◌, ◌||◌};
ghost use Rattle.wire.specs.Bits.{bit};

use wire::bits::is_set;
use wire::places::{AT_H, AT_HH, AT_L, AT_LL};

// Whether one of a side's two levels is set.
#[derive(Clone, Copy)]
pub struct Sides {
    pub high: bool,
    pub low: bool,
}

pub fn sides_of(six: u32) -> Sides
    ensures high { result.high ≡ bit six 0 || bit six 3 }
    ensures low { result.low ≡ bit six 6 || bit six 9 }
{
    Sides {
        high: is_set(six, AT_HH) | is_set(six, AT_H),
        low: is_set(six, AT_L) | is_set(six, AT_LL),
    }
}
