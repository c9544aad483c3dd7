// What both programs print of a bank.
ghost use Rattle.std.specs.Prelude.{◌≡◌};
ghost use Rattle.bank_text.specs.Internal.Show.{first_number, end_of_numbers};

use settings::refusals::Refusal;
use settings::types::Form;
use std::fmt;
use std::ops::Range;
use text::row::Row;

// A refusal, by its number and place.
#[derive(Clone, Copy)]
pub struct Refused(pub Refusal);

impl fmt::Display for Refused {
    fn fmt<W: fmt::Write>(&self, f: &mut fmt::Formatter<W>) -> fmt::Result {
        let Refusal { reason, place } = self.0;
        let row = Row {
            numbers: [u64::from(reason.number()), place as u64],
        };
        write!(f, "refused {row}")
    }
}

// The numbers of the conditions of an alarm: 0 for the one of a digital alarm, and 1 to 6 for those of an analog one. All of them, where
// `slot_at` of event has the byte of one; numbers and no enum, since they are counted up and printed.
pub fn condition_numbers(form: Form) -> Range<usize>
    ensures { result ≡ record { start = first_number form; end = end_of_numbers form } }
{
    match form {
        Form::Digital => 0..1,
        Form::Analog => 1..7,
    }
}
