// REALs, by bit pattern and by magnitude.
ghost use Rattle.std.specs.Prelude.{◌≡◌, ℕ};
ghost use Rattle.std.specs.Float.{binary32};
ghost use Rattle.std.specs.Float.Ieee.{of_bits, to_bits};
ghost use Rattle.wire.specs.Real.{bounded, real_at};
ghost use Rattle.wire.specs.Internal.Words.{real_bytes};
ghost use Rattle.wire.specs.Internal.Kept.{length-bytes, real-back};

use crate::number::LittleEndian;

// Bit patterns: the sign, and below it an infinity's; those above that are NaNs'.
const SIGN: u32 = 0x8000_0000;

const INFINITY: u32 = 0x7F80_0000;

pub fn from_pattern(bits: u32) -> f32
    ensures { result ≡ of_bits binary32 bits }
{
    if bits % SIGN <= INFINITY {
        f32::from_bits(bits)
    } else {
        0.0 / 0.0
    }
}

// That x is a NaN is asked by comparison, which its law is about.
pub fn to_pattern(x: f32) -> u32
    ensures { result ≡ to_bits binary32 x }
{
    if x == x { f32::to_bits(x) } else { 0x7FC0_0000 }
}

// By comparison too, and no range's `contains`: the laws are about the two comparisons.
pub fn is_bounded(x: f32) -> bool
    ensures { result ≡ bounded x }
{
    (-999_999_986_991_104.0 <= x) & (x <= 999_999_986_991_104.0)
}

impl LittleEndian for f32 {
    ghost width = { 4 };

    ghost bytes_of = { real_bytes };

    ghost read_at = { real_at };

    ghost IsValue = { λ x. (n : ℕ) × (x ≡ of_bits binary32 n) };

    fn get(s: &[u8], at: usize) -> f32 {
        from_pattern(u32::get(s, at))
    }

    fn put(self, s: &mut [u8], at: usize) {
        to_pattern(self).put(s, at);
    }

    ghost fills_width = { λ x. length-bytes 4 (to_bits binary32 x) };

    ghost gives_back = { real-back };
}
