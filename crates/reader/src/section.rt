// A section of a settings image: its count, then a record for each alarm. Image and offset as in the count (count.rt).
ghost use Rattle.std.specs.Prelude.{◌≡◌, ◌+◌, ◌-◌, ◌≤◌};
ghost use Rattle.settings.specs.Counts.{all_most};
ghost use Rattle.reader.specs.Section.{records_from, section_at};
ghost use Rattle.reader.specs.Internal.Alarms.{span_of, records_alarms, section_alarms};

use crate::count::count_at;
use settings::counts::ALARMS;
use settings::refusals::Refusal;
use settings::types::{Alarm, Form};
use settings_record::record::record_at;

// Reads the records of the alarms from place `first` to before `end` into their places and answers how many these are and the offset past
// them, or the first refusal, which leaves the alarms as they stand. The places are worked out from the count for this call, so no struct of
// them is plainer. That `end` is at most all places is a clause and no type, since there are no counts yet that a bank may have.
fn records(
    image: &[u8],
    at: usize,
    form: Form,
    first: usize,
    end: usize,
    alarms: &mut [Alarm; ALARMS],
) -> Result<(usize, usize), Refusal>
    requires first_le_end { first ≤ end }
    requires end_le_all_most { end ≤ all_most }
    ensures value { result ≡ span_of (records_from form image.now (end - first) (end - first) first at alarms.old) }
    ensures alarms_after { alarms.new ≡ records_alarms form image.now (end - first) first at alarms.old }
{
    let mut next = at;
    for place in first..end {
        let (alarm, past) = record_at(image, next, form)?;
        alarms[place] = alarm;
        next = past;
    }
    Ok((end - first, next))
}

// Reads a section whose first alarm has the place `first`: its alarms into their places, and how many they are and the offset past it.
pub fn section_at(
    image: &[u8],
    at: usize,
    form: Form,
    first: usize,
    alarms: &mut [Alarm; ALARMS],
) -> Result<(usize, usize), Refusal>
    requires { first ≤ 12 }
    ensures value { result ≡ span_of (section_at form image.now first at alarms.old) }
    ensures alarms_after { alarms.new ≡ section_alarms form image.now first at alarms.old }
{
    let (n, next) = count_at(image, at)?;
    records(image, next, form, first, first + n, alarms)
}
