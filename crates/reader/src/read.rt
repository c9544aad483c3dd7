// The reader of a settings image.
ghost use Rattle.std.specs.Prelude.{◌≡◌};
ghost use Rattle.reader.specs.Read.{read_of, sections_of};

use crate::section::section_at;
use settings::counts::Counts;
use settings::refusals::{Reason, Refusal};
use settings::types::{Form, Settings, blank_alarms, factory};

// The settings that an image holds which has bytes, or the first refusal in reading order.
fn read_sections(image: &[u8]) -> Result<Settings, Refusal>
    ensures { result ≡ sections_of image.now }
{
    let mut alarms = blank_alarms();
    let (digital, next) = section_at(image, 0, Form::Digital, 0, &mut alarms)?;
    let (analog, end) = section_at(image, next, Form::Analog, digital, &mut alarms)?;
    if end < image.len() {
        return Err(Reason::LeftOver.at(end));
    }
    let counts = Counts { digital, analog };
    Ok(Settings { counts, alarms })
}

// The settings that an image means, or its first refusal: one of no bytes means the factory bank.
pub fn read(image: &[u8]) -> Result<Settings, Refusal>
    ensures { result ≡ read_of image.now }
{
    match image {
        [] => Ok(factory()),
        _ => read_sections(image),
    }
}
