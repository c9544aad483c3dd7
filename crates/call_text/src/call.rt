// A line of text as a call.
ghost use Rattle.std.specs.Prelude.{◌≡◌, ◌<◌, ◌≤◌, ◌↔◌, None, length, IfOk, IsErrOf};
ghost use Rattle.call_text.specs.Internal.Call.{IsComment, room_of};

use crate::fault::{BadLine, Fault};
use crate::words::Words;
use text::pieces::LONGEST_LINE;

// What a line asks for. The bytes that it spells stand in a block that is lent for them.
#[derive(Clone, Copy)]
pub enum Call<'a> {
    Settings { image: &'a [u8] },
    Scan { room: usize, record: &'a [u8] },
    Report { alarm: usize },
    Write { room: usize },
}

// Reads a line: the name of a call, and a word for each thing that it hands on. An empty line, or one that begins with `#`, is a comment:
// it asks for nothing. The bytes that it spells come to `block`.
pub fn parse<'a>(line: &[u8], block: &'a mut Vec<u8>) -> Result<Option<Call<'a>>, BadLine>
    ensures too_long { LONGEST_LINE < length line.now → IsErrOf result BadLine.TooLong }
    ensures comment { (result ≡ Ok None) ↔ ((length line.now ≤ LONGEST_LINE) × IsComment line.now) }
    ensures room { IfOk result (λ asked. room_of asked ≤ 65536) }
{
    if LONGEST_LINE < line.len() {
        return Err(BadLine::TooLong);
    }
    if let [] | [b'#', ..] = line {
        return Ok(None);
    }
    let mut words = Words::new(line);
    let call = match words.next_word() {
        Some(b"settings") => Call::Settings {
            image: words.bytes(block)?,
        },
        Some(b"scan") => {
            let room = words.room()?;
            words.no_role()?;
            Call::Scan {
                room,
                record: words.bytes(block)?,
            }
        }
        Some(b"report") => Call::Report {
            alarm: words.number()?,
        },
        Some(b"write") => Call::Write {
            room: words.room()?,
        },
        _ => return Err(words.bad(Fault::NoCall)),
    };
    words.end()?;
    Ok(Some(call))
}
