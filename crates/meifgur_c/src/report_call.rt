// The call that reports an alarm.
ghost use Rattle.std.specs.Prelude.{◌≡◌, ◌||◌, [], ◌≤◌, ltb, length};
ghost use Rattle.std.proofs.lemmas.List.Edits.{sets};
ghost use Rattle.bank.specs.Internal.Words.{words_in};
ghost use Rattle.report.specs.Internal.Report.{report_in};
ghost use Rattle.meifgur_c.specs.Calls.{unless, short_answer, reply_words, report_code, report_out};

use crate::answers::{REPORT_ANSWER, SHORT_ANSWER, SHORT_REPORT, number_in, reply_words};
use host_bytes::answer::put_words;
use host_bytes::rows::{REPORT_SIZE, report_bytes};
use report::report::{AlarmReport, report};

// Writes an accepted report; a refused one leaves every byte.
fn put_said(out: &mut [u8], said: AlarmReport)
    requires { 224 ≤ length out.old }
    ensures { out.new ≡ report_out said out.old }
{
    if said.reply.is_ok() {
        out[..REPORT_SIZE].copy_from_slice(&report_bytes(said));
    }
}

// Fills the front of `out` with the 224 bytes of an alarm's report, or refuses and leaves every byte.
// The three blocks are parameters, and the answer has a length of its own, tested here: the C interface.
#[unsafe(no_mangle)]
pub extern "C" fn meifgur_report_words(
    settings: &[u64],
    states: &[u64],
    marks: &[u64],
    alarm: usize,
    out: &mut [u8],
    answer: &mut [u64],
) -> u32
    ensures value { result ≡ report_code (length answer.old) (length out.old)
        (report_in (words_in settings.now states.now marks.now) alarm) }
    ensures out_after { out.new ≡ unless (short_answer 2 answer.old || ltb (length out.old) 224) out.old
        (report_out (report_in (words_in settings.now states.now marks.now) alarm) out.old) }
    ensures answer_after { answer.new ≡ unless (short_answer 2 answer.old || ltb (length out.old) 224) answer.old
        (sets answer.old 0 (reply_words (report_in (words_in settings.now states.now marks.now) alarm).reply)) }
{
    if answer.len() < REPORT_ANSWER {
        return SHORT_ANSWER;
    }
    if out.len() < REPORT_SIZE {
        return SHORT_REPORT;
    }
    let said = report(settings, states, marks, alarm);
    let reply = said.reply;
    put_said(out, said);
    put_words(answer, &reply_words(reply));
    number_in(reply)
}
