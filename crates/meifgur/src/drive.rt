// A drive: scan records run on a bank.
ghost use Rattle.std.specs.Prelude.{OnOk, IfOk};
ghost use Rattle.std.specs.Io.KnownBytes.{Appends};
ghost use Rattle.scan.specs.Internal.Words.{answer_of};
ghost use Rattle.bank_text.specs.Internal.Owned.{words_of};
ghost use Rattle.event.specs.Event.{events_enough};
ghost use Rattle.meifgur.specs.Internal.Show.{event_lines, scan_events};

use crate::show::{write_conditions, write_events};
use bank_text::owned::Bank;
use bank_text::show::Refused;
use event::write::EVENT_SIZE;
use scan::scan::EVENTS_ENOUGH;
use scan_record::check::record_length;
use std::alloc::Global;
use std::io::{Read, Write};
use text::console::Console;
use text::failure::Failure;
use text::pieces::Pieces;

// Runs a scan record, and writes its events or its refusal. The events' buffer is lent to every scan, and what an earlier one left in it is
// never written.
fn answer_record<W: Write>(
    bank: &mut Bank,
    bytes: &[u8],
    events: &mut [u8; EVENTS_ENOUGH],
    output: &mut W,
) -> Result<(), Failure>
    ensures { IfOk (answer_of (words_of bank.old) bytes.now events_enough)
        (λ number. OnOk result (Appends (W.contents output.old) (W.contents output.new)
        (event_lines (scan_events (words_of bank.old) bytes.now number)))) }
{
    match bank.scan(bytes, events) {
        Ok(number) => write_events(output, &events[..number * EVENT_SIZE])?,
        Err(refusal) => writeln!(output, "{}", Refused(refusal))?,
    }
    Ok(())
}

// Makes a bank of a settings image, runs the records of an input on it, and writes how each condition stands at the end. An input that
// fails has no end, and nothing is written then. No clause can say what was written, since the output does not come back.
pub fn drive<R: Read + Drop, W: Write + Drop>(
    alloc: Global,
    image: &[u8],
    input: R,
    output: W,
) -> Result<(), Failure> {
    let mut console = Console::new(alloc, input, output)?;
    let outcome = answer_all(alloc, image, &mut console);
    console.end(outcome)
}

fn answer_all<R: Read + Drop, W: Write + Drop>(
    alloc: Global,
    image: &[u8],
    console: &mut Console<R, W>,
) -> Result<(), Failure> {
    let mut bank = Bank::new();
    if let Err(refusal) = bank.load(image) {
        writeln!(console.output, "{}", Refused(refusal))?;
        return Ok(());
    }
    let records = Pieces::Records(record_length(bank.counts()));
    // A rule of the project: an array, lent to every scan. It is made once, since to fill it with zeros takes about as long as a short scan.
    let mut events = [0; EVENTS_ENOUGH];
    console.answer_pieces(alloc, records, |record, output| {
        answer_record(&mut bank, record, &mut events, output)
    })?;
    write_conditions(&mut console.output, &bank)?;
    Ok(())
}

#[cfg(test)]
mod tests;
