// The sizes and offsets of the blocks, in words, and the word that says which layout they have.

// Places for alarms. Settings fill 24 of them.
pub const PLACES: usize = 36;

// In front of the alarms: the layout word, the number of digital alarms, of analog ones, and a 0.
pub const SETTINGS_HEAD: usize = 4;

// Where the two numbers stand there.
pub const DIGITAL_COUNT: usize = 1;

pub const ANALOG_COUNT: usize = 2;

// The words of an alarm's settings.
pub const ALARM_WORDS: usize = 8;

pub const SETTINGS_WORDS: usize = SETTINGS_HEAD + ALARM_WORDS * PLACES;

// The letters MEIFGUR2, the first in the highest byte.
pub const LAYOUT_WORD: u64 = 0x4D45_4946_4755_5232;

// In front of the states: the time of the last accepted scan, and room.
pub const STATES_HEAD: usize = 4;

// Where the time stands there.
pub const LAST_TIME: usize = 0;

// The words of an alarm's state, and how many of them are used; the rest is room for more.
pub const STATE_WORDS: usize = 16;

pub const STATE_USED: usize = 11;

pub const STATES_WORDS: usize = STATES_HEAD + STATE_WORDS * PLACES;

// The words of an alarm's counts and stamps.
pub const MARK_WORDS: usize = 25;

pub const MARKS_WORDS: usize = MARK_WORDS * PLACES;
