// The three blocks of a bank.
ghost use Rattle.std.specs.Prelude.{◌≡◌, length};
ghost use Rattle.layout.specs.Internal.Sizes.{marks_size, states_size};

use layout::sizes::{MARKS_WORDS, SETTINGS_WORDS, STATES_WORDS};

// To be read.
#[derive(Clone, Copy)]
pub struct Blocks<'a> {
    pub settings: &'a [u64; SETTINGS_WORDS],
    pub states: &'a [u64; STATES_WORDS],
    pub marks: &'a [u64; MARKS_WORDS],
}

// What a bank keeps between scans, to be written. How long the arrays are is said for proofs, which don't see it of a field.
#[derive(Drop)]
pub struct Kept<'a> {
    pub states: &'a mut [u64; STATES_WORDS],
    pub marks: &'a mut [u64; MARKS_WORDS],
    pub ghost states_long: { length states.now ≡ states_size },
    pub ghost marks_long: { length marks.now ≡ marks_size },
}
