// Two numbers of 32 bits in a word, in its lower and its upper half. A REAL stands there by its bit pattern.
ghost use Rattle.std.specs.Prelude.{◌≡◌, ◌%◌};
ghost use Rattle.std.specs.Float.{binary32};
ghost use Rattle.std.specs.Float.Ieee.{to_bits, of_bits};
ghost use Rattle.layout.specs.Internal.Words.{lower_of, upper_of, pair_of, lower_real, upper_real, reals_of};

use wire::real::{from_pattern, to_pattern};

// 2 to the 32: what a one in the upper half counts.
pub const HALF: u64 = 0x1_0000_0000;

// Here and in the next two `as` narrows what the division left: TryFrom would ask what is proved.
pub fn lower(w: u64) -> u32
    ensures { result ≡ lower_of w }
{
    (w % HALF) as u32
}

pub fn upper(w: u64) -> u32
    ensures { result ≡ upper_of w }
{
    (w / HALF) as u32
}

// The lowest byte.
pub fn lowest(w: u64) -> u8
    ensures { result ≡ w % 256 }
{
    (w % 256) as u8
}

// Two halves as a word: of numbers, and by their patterns of REALs (`real_pair`), so that it has no twin.
pub fn pair(l: u32, h: u32) -> u64
    ensures { (result ≡ pair_of l h) × (lower_of result ≡ l) × (upper_of result ≡ h) }
{
    u64::from(l) + HALF * u64::from(h)
}

pub fn lower_real(w: u64) -> f32
    ensures { result ≡ lower_real w }
{
    from_pattern(lower(w))
}

pub fn upper_real(w: u64) -> f32
    ensures { result ≡ upper_real w }
{
    from_pattern(upper(w))
}

// A REAL's pattern, which says the REAL again.
pub fn pattern(x: f32) -> u32
    ensures { (result ≡ to_bits binary32 x) × (of_bits binary32 result ≡ x) }
{
    to_pattern(x)
}

pub fn real_pair(x: f32, y: f32) -> u64
    ensures { (result ≡ reals_of x y) × (lower_real result ≡ x) × (upper_real result ≡ y) }
{
    pair(pattern(x), pattern(y))
}
