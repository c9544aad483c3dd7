// The count byte in front of a section. Image and offset are two parameters, here and in sections and records, as in the definitions: the
// offset is another one at each call.
ghost use Rattle.std.specs.Prelude.{◌≡◌};
ghost use Rattle.reader.specs.Count.{count_at};

use settings::counts::MOST;
use settings::refusals::{Reason, Refusal};

// How many alarms a section has and where its first record begins, or the refusal.
pub fn count_at(image: &[u8], at: usize) -> Result<(usize, usize), Refusal>
    ensures { result ≡ count_at image.now at }
{
    let Some(byte) = image.get(at) else {
        return Err(Reason::Incomplete.at(at));
    };
    let n = usize::from(*byte);
    if n <= MOST {
        Ok((n, at + 1))
    } else {
        Err(Reason::TooMany.at(at))
    }
}
