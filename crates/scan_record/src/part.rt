// Where things stand in a scan record: the time, then each alarm's part, a reading and a command word of four bytes.
ghost use Rattle.std.specs.Prelude.{◌≡◌};
ghost use Rattle.scan_record.specs.Part.{entry_size, offset_of};

use settings::counts::GoodCounts;
use settings::types::Form;

pub const TIME_SIZE: usize = 8;

// Where the command word stands in a part: behind one byte, or behind a REAL.
pub const DIGITAL_WORD: usize = 1;

pub const ANALOG_WORD: usize = 4;

// How many bytes a part has.
pub const DIGITAL_PART: usize = 5;

pub const ANALOG_PART: usize = 8;

// How long a part is. A name of its own, so that callers read one clause and no match.
pub fn part_size(form: Form) -> usize
    ensures { result ≡ entry_size form }
{
    match form {
        Form::Digital => DIGITAL_PART,
        Form::Analog => ANALOG_PART,
    }
}

// Where the analog alarms' parts begin: behind the time and the digital alarms' parts.
pub fn analog_begin(good: GoodCounts) -> usize
    ensures { result ≡ offset_of good.counts good.counts.digital }
{
    TIME_SIZE + DIGITAL_PART * good.counts.digital
}
