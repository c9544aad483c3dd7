// What the calls answer, as text.
use bank_text::show::condition_numbers;
use hex::encode_to_slice;
use report::report::AlarmReport;
use settings::types::Form;
use std::fmt;
use std::str::from_utf8;
use text::row::Row;
use wire::real::to_pattern;

// How many bytes are written as one piece.
const CHUNK: usize = 256;

// What a call wrote: a number, and bytes in pairs of hexadecimal digits, or `-` where there are none.
#[derive(Clone, Copy)]
pub struct Written<'a> {
    pub number: usize,
    pub bytes: &'a [u8],
}

impl fmt::Display for Written<'_> {
    fn fmt<W: fmt::Write>(&self, f: &mut fmt::Formatter<W>) -> fmt::Result {
        let number = self.number;
        write!(f, "ok {number} ")?;
        if self.bytes.is_empty() {
            write!(f, "-")?;
        }
        let mut digits = [0; 2 * CHUNK];
        for chunk in self.bytes.chunks(CHUNK) {
            let pairs = &mut digits[..2 * chunk.len()];
            let Ok(()) = encode_to_slice(chunk, pairs) else {
                unreachable!();
            };
            let Ok(text) = from_utf8(pairs) else {
                unreachable!();
            };
            f.write_str(text)?;
        }
        Ok(())
    }
}

// A report of an alarm: modes, count reset stamp, rate and elapsed runs, and its conditions.
#[derive(Clone, Copy)]
pub struct Report {
    pub found: AlarmReport,
    pub form: Form,
}

impl fmt::Display for Report {
    fn fmt<W: fmt::Write>(&self, f: &mut fmt::Formatter<W>) -> fmt::Result {
        let alarm = self.found.alarm;
        let modes = Row {
            numbers: [
                u64::from(alarm.enabled),
                u64::from(alarm.suppressed),
                u64::from(alarm.infaulted),
                u64::from(alarm.severityinv),
                self.found.resettime,
            ],
        };
        let rate = to_pattern(alarm.rate);
        let runs = Row {
            numbers: [alarm.high, alarm.low],
        };
        write!(f, "ok {modes} {rate:08x} {runs}")?;
        for (number, status) in condition_numbers(self.form).zip(&self.found.conditions) {
            let condition = Row {
                numbers: [
                    number as u64,
                    u64::from(status.alarm),
                    u64::from(status.acked),
                    status.count,
                    status.alarmtime,
                    status.returntime,
                    status.acktime,
                ],
            };
            write!(f, " / {condition}")?;
        }
        Ok(())
    }
}
