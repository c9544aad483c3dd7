// The report of an alarm as 224 bytes: seven rows of 32, one for the whole alarm and one for each of six conditions.
ghost use Rattle.std.specs.Prelude.{◌≡◌};
ghost use Rattle.host_bytes.specs.Bytes.{row_bytes, whole_row, status_row, condition_bytes, report_bytes};

use report::report::AlarmReport;
use report::status::Status;
use report::whole::Whole;
use wire::real::to_pattern;

// Bytes of a row, and of a report.
const ROW_SIZE: usize = 32;

pub const REPORT_SIZE: usize = 7 * ROW_SIZE;

// Four flags, a number of four bytes, three times of eight. `number` is a count or a REAL's pattern, four bytes of a report, and no refusal.
#[derive(Clone, Copy)]
pub struct Row {
    pub flags: [bool; 4],
    pub number: u32,
    pub times: [u64; 3],
}

fn row_bytes(row: Row) -> [u8; ROW_SIZE]
    ensures { result ≡ row_bytes row }
{
    let [one, two, three, four] = row.flags.map(u8::from);
    let [a, b, c, d] = row.number.to_le_bytes();
    let [first, second, third] = row.times.map(u64::to_le_bytes);
    let parts = [[one, two, three, four, a, b, c, d], first, second, third];
    parts.as_flattened().try_into().unwrap()
}

// What is said of a whole alarm.
fn whole_row(w: Whole, reset: u64) -> Row
    ensures { result ≡ whole_row w reset }
{
    Row {
        flags: [w.enabled, w.suppressed, w.infaulted, w.severityinv],
        number: to_pattern(w.rate),
        times: [reset, w.high, w.low],
    }
}

// What is said of a condition.
fn status_row(s: Status) -> Row
    ensures { result ≡ status_row s }
{
    Row {
        flags: [s.alarm, s.acked, false, false],
        // `as` narrows what the division left
        number: (s.count % 4_294_967_296) as u32,
        times: [s.alarmtime, s.acktime, s.returntime],
    }
}

// The 224 bytes of a report.
pub fn report_bytes(said: AlarmReport) -> [u8; REPORT_SIZE]
    ensures { result ≡ report_bytes said }
{
    let [a, b, c, d, e, f] = said.conditions.map(status_row);
    let rows = [whole_row(said.alarm, said.resettime), a, b, c, d, e, f].map(row_bytes);
    rows.as_flattened().try_into().unwrap()
}
