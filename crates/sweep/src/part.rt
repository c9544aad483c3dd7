// What a scan reads, and the alarms that it comes to.
ghost use Rattle.std.specs.Prelude.{◌+◌, ◌≤◌, length};
ghost use Rattle.scan_record.specs.Part.{entry_size};

use layout::place::Place;
use layout::sizes::SETTINGS_WORDS;
use settings::types::Form;

// The settings of a bank, and the time of a checked record.
#[derive(Clone, Copy)]
pub struct Scan<'a> {
    pub settings: &'a [u64; SETTINGS_WORDS],
    pub time: u64,
}

// The alarms of one form: how many they are, the place of the first, the record, and where the part of the first begins in it.
#[derive(Clone, Copy)]
pub struct Group<'a> {
    pub form: Form,
    pub first: usize,
    pub count: usize,
    pub bytes: &'a [u8],
    pub at: usize,
}

// An alarm: its form and place, the record, and where its part begins in it.
#[derive(Clone, Copy)]
pub struct Part<'a> {
    pub form: Form,
    pub place: Place,
    pub bytes: &'a [u8],
    pub at: usize,
    pub ghost whole: { at + entry_size form ≤ length bytes.now },
}
