// The call that runs many scan records.
ghost use Rattle.std.specs.Prelude.{◌≡◌, length};
ghost use Rattle.std.proofs.lemmas.List.Edits.{sets};
ghost use Rattle.bank.specs.Internal.Words.{words_in};
ghost use Rattle.replay.specs.Replay.{replayed_of, replayed_words, replayed_buffer};
ghost use Rattle.meifgur_c.specs.Calls.{unless, short_answer, number_in, replay_words};

use crate::answers::{REPLAY_ANSWER, SHORT_ANSWER, number_in, replay_words};
use host_bytes::answer::put_words;
use replay::replay::replay;

// Runs each record of `records` as a scan of its own and passes over those that are refused; the events stand one after the
// other in `events`.
// The three blocks are parameters, and the answer has a length of its own, tested here: the C interface.
#[unsafe(no_mangle)]
pub extern "C" fn meifgur_replay_words(
    settings: &[u64],
    states: &mut [u64],
    marks: &mut [u64],
    records: &[u8],
    events: &mut [u8],
    answer: &mut [u64],
) -> u32
    ensures value { result ≡ unless (short_answer 5 answer.old) 40 (number_in
        (replayed_of (words_in settings.now states.old marks.old) records.now events.old)) }
    ensures states_after { states.new ≡ unless (short_answer 5 answer.old) states.old
        (replayed_words (words_in settings.now states.old marks.old) records.now events.old).states }
    ensures marks_after { marks.new ≡ unless (short_answer 5 answer.old) marks.old
        (replayed_words (words_in settings.now states.old marks.old) records.now events.old).marks }
    ensures events_after { events.new ≡ unless (short_answer 5 answer.old) events.old
        (replayed_buffer (words_in settings.now states.old marks.old) records.now events.old) }
    ensures answer_after { answer.new ≡ unless (short_answer 5 answer.old) answer.old (sets answer.old 0
        (replay_words
        (replayed_of (words_in settings.now states.old marks.old) records.now events.old))) }
{
    if answer.len() < REPLAY_ANSWER {
        return SHORT_ANSWER;
    }
    let done = replay(settings, states, marks, records, events);
    put_words(answer, &replay_words(done));
    number_in(done)
}
