// The words of an alarm's state, by their offset.

// The flags in the lower half, the last accepted command word in the upper.
pub const FLAGS: usize = 0;

// The patterns of the rate sample and of the rate, and the sample's time.
pub const SAMPLE: usize = 1;

pub const SAMPLE_TIME: usize = 2;

// When the runs of the high and the low side began.
pub const HIGH: usize = 3;

pub const LOW: usize = 4;

// The words of all starts, the last ones of a state.
pub const STARTS_WORDS: usize = 8;

// When the rows of the conditions began, six; a digital alarm has one.
pub const STARTS: usize = 5;
