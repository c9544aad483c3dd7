// The call that runs a scan.
ghost use Rattle.std.specs.Prelude.{◌≡◌, length};
ghost use Rattle.std.proofs.lemmas.List.Edits.{sets};
ghost use Rattle.bank.specs.Internal.Words.{words_in};
ghost use Rattle.scan.specs.Internal.Words.{answer_of, scanned_words, buffer_of};
ghost use Rattle.meifgur_c.specs.Calls.{unless, short_answer, number_in, counted_words};

use crate::answers::{SCAN_ANSWER, SHORT_ANSWER, counted_words, number_in};
use host_bytes::answer::put_words;
use scan::scan::scan;

// Runs one scan record in place and fills the front of `events`, or refuses and leaves every word and byte.
// The three blocks are parameters, and the answer has a length of its own, tested here: the C interface.
#[unsafe(no_mangle)]
pub extern "C" fn meifgur_scan_words(
    settings: &[u64],
    states: &mut [u64],
    marks: &mut [u64],
    bytes: &[u8],
    events: &mut [u8],
    answer: &mut [u64],
) -> u32
    ensures value { result ≡ unless (short_answer 3 answer.old) 40 (number_in
        (answer_of (words_in settings.now states.old marks.old) bytes.now (length events.old))) }
    ensures states_after { states.new ≡ unless (short_answer 3 answer.old) states.old (scanned_words
        (words_in settings.now states.old marks.old) bytes.now (length events.old)).states }
    ensures marks_after { marks.new ≡ unless (short_answer 3 answer.old) marks.old (scanned_words
        (words_in settings.now states.old marks.old) bytes.now (length events.old)).marks }
    ensures events_after { events.new ≡ unless (short_answer 3 answer.old) events.old
        (buffer_of (words_in settings.now states.old marks.old) bytes.now events.old) }
    ensures answer_after { answer.new ≡ unless (short_answer 3 answer.old) answer.old (sets answer.old 0 (counted_words
        (answer_of (words_in settings.now states.old marks.old) bytes.now (length events.old)))) }
{
    if answer.len() < SCAN_ANSWER {
        return SHORT_ANSWER;
    }
    let scanned = scan(settings, states, marks, bytes, events);
    put_words(answer, &counted_words(scanned));
    number_in(scanned)
}
