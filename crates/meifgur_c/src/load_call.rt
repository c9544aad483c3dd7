// The call that makes a bank of a settings image.
ghost use Rattle.std.specs.Prelude.{◌≡◌, length};
ghost use Rattle.std.proofs.lemmas.List.Edits.{sets};
ghost use Rattle.layout.specs.Internal.Block.{counts_in};
ghost use Rattle.bank.specs.Internal.Words.{words_in};
ghost use Rattle.bank.specs.Internal.Load.{load_reply, load_words};
ghost use Rattle.meifgur_c.specs.Calls.{unless, short_answer, number_in, load_answer};

use crate::answers::{LOAD_ANSWER, SHORT_ANSWER, load_words, number_in};
use bank::load::load;
use host_bytes::answer::put_words;
use layout::block::counts_in;

// Writes the bank of a settings image, or of a refused one a bank without alarms. Blocks of other lengths are left. The C interface
// passes the three blocks one by one, and each answer has a length of its own, tested by its call.
#[unsafe(no_mangle)]
pub extern "C" fn meifgur_load_words(
    image: &[u8],
    settings: &mut [u64],
    states: &mut [u64],
    marks: &mut [u64],
    answer: &mut [u64],
) -> u32
    ensures value { result ≡ unless (short_answer 4 answer.old) 40
        (number_in (load_reply (words_in settings.old states.old marks.old) image.now)) }
    ensures settings_after { settings.new ≡ unless (short_answer 4 answer.old) settings.old
        (load_words (words_in settings.old states.old marks.old) image.now).settings }
    ensures states_after { states.new ≡ unless (short_answer 4 answer.old) states.old
        (load_words (words_in settings.old states.old marks.old) image.now).states }
    ensures marks_after { marks.new ≡ unless (short_answer 4 answer.old) marks.old
        (load_words (words_in settings.old states.old marks.old) image.now).marks }
    ensures answer_after { answer.new ≡ unless (short_answer 4 answer.old) answer.old (sets answer.old 0 (load_answer
        (load_reply (words_in settings.old states.old marks.old) image.now)
        (load_words (words_in settings.old states.old marks.old) image.now).settings)) }
{
    if answer.len() < LOAD_ANSWER {
        return SHORT_ANSWER;
    }
    let reply = load(image, settings, states, marks);
    let counts = counts_in(settings);
    put_words(answer, &load_words(reply, counts));
    number_in(reply)
}
