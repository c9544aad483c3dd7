// The lines of events, and of conditions at the end.
ghost use Rattle.std.specs.Prelude.{OnOk, Some};
ghost use Rattle.std.specs.Io.KnownBytes.{Appends};
ghost use Rattle.bank_text.specs.Internal.Owned.{words_of};
ghost use Rattle.meifgur.specs.Internal.Show.{event_text, event_lines, condition_text, alarm_lines, bank_lines};

use bank_text::owned::Bank;
use bank_text::show::condition_numbers;
use event::write::EVENT_SIZE;
use report::status::Status;
use std::io::Write;
use std::{fmt, io};
use text::row::Row;
use wire::number::LittleEndian;

// What the line of an event record says: time, alarm, condition, kind, severity, suppressed.
#[derive(Clone, Copy)]
struct Event<'a>(&'a [u8; EVENT_SIZE]);

impl fmt::Display for Event<'_> {
    ghost output = { λ event. Some (event_text event.0.now) };

    fn fmt<W: fmt::Write>(&self, f: &mut fmt::Formatter<W>) -> fmt::Result {
        let Event(record) = *self;
        let [alarm, condition, kind, suppressed, ..] = *record;
        let severity = u16::get(record, 4);
        let time = u64::get(record, 8);
        let row = Row {
            numbers: [
                time,
                u64::from(alarm),
                u64::from(condition),
                u64::from(kind),
                u64::from(severity),
                u64::from(suppressed),
            ],
        };
        write!(f, "{row}")
    }
}

// Writes the lines of event records, one after another. Bytes after the last whole record have no line.
pub fn write_events<W: Write>(output: &mut W, events: &[u8]) -> io::Result<()>
    ensures { OnOk result (Appends (W.contents output.old) (W.contents output.new) (event_lines events.now)) }
{
    let (records, _) = events.as_chunks::<EVENT_SIZE>();
    for record in records {
        writeln!(output, "{}", Event(record))?;
    }
    Ok(())
}

// What the line of a condition says at the end: alarm, condition, in alarm, unacknowledged, count.
#[derive(Clone, Copy)]
struct Standing {
    alarm: usize,
    condition: usize,
    status: Status,
}

impl fmt::Display for Standing {
    ghost output = { λ standing. Some (condition_text standing.alarm standing.condition standing.status) };

    fn fmt<W: fmt::Write>(&self, f: &mut fmt::Formatter<W>) -> fmt::Result {
        let Standing {
            alarm,
            condition,
            status,
        } = *self;
        let row = Row {
            numbers: [
                alarm as u64,
                condition as u64,
                u64::from(status.alarm),
                u64::from(!status.acked),
                status.count,
            ],
        };
        write!(f, "end {row}")
    }
}

// Writes the line of each condition, alarm by alarm.
pub fn write_conditions<W: Write>(output: &mut W, bank: &Bank) -> io::Result<()>
    ensures { OnOk result (Appends (W.contents output.old) (W.contents output.new) (bank_lines (words_of bank.now))) }
{
    for alarm in 1..=bank.alarms() {
        write_alarm(output, bank, alarm)?;
    }
    Ok(())
}

// The lines of an alarm's conditions. No lines where no alarm has the number.
fn write_alarm<W: Write>(output: &mut W, bank: &Bank, alarm: usize) -> io::Result<()>
    ensures { OnOk result (Appends (W.contents output.old) (W.contents output.new) (alarm_lines (words_of bank.now) alarm)) }
{
    let Ok(found) = bank.report(alarm) else {
        return Ok(());
    };
    for (condition, status) in condition_numbers(bank.form(alarm)).zip(&found.conditions) {
        let standing = Standing {
            alarm,
            condition,
            status: *status,
        };
        writeln!(output, "{standing}")?;
    }
    Ok(())
}
