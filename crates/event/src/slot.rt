// What an event says of the condition at a place, from the words of the alarm's settings.
ghost use Rattle.std.specs.Prelude.{◌≡◌, ◌<◌};
ghost use Rattle.layout.specs.Internal.Words.{kind_in};
ghost use Rattle.event.specs.Internal.Events.{stored_severity};
ghost use Rattle.event.specs.Internal.Bits.{condition_of};

use crate::source::Source;
use layout::half::{lower, upper};
use layout::read::severity_in;
use settings::types::Form;
use wire::choice::choose;

// Where the severities begin among an alarm's words, two a word.
pub const SEVERITIES: usize = 5;

// The number of the condition, 0 of a digital alarm and from 1 on of an analog one, and the severity that is stored for it. A number and no
// enum: it is a byte of the record, counted from the place.
#[derive(Clone, Copy)]
pub struct Slot {
    pub condition: u8,
    pub severity: u32,
}

// Those of the condition at a place. `as` narrows: a place is below 6.
pub fn slot_at(source: &Source<'_>, place: usize) -> Slot
    requires { place < 6 }
    ensures condition { result.condition ≡ condition_of source.now.form place }
    ensures severity { result.severity ≡ stored_severity (kind_in source.now.form source.now.settings.now 0) (condition_of source.now.form place) }
{
    match source.form {
        Form::Digital => Slot {
            condition: 0,
            severity: severity_in(source.settings),
        },
        Form::Analog => {
            let pair = source.settings[SEVERITIES + place / 2];
            Slot {
                condition: (1 + place) as u8,
                severity: choose(place % 2 == 0, lower(pair), upper(pair)),
            }
        }
    }
}
