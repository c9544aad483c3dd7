// The call that writes a bank's settings back.
ghost use Rattle.std.specs.Prelude.{◌≡◌, length};
ghost use Rattle.std.proofs.lemmas.List.Edits.{sets};
ghost use Rattle.image.specs.Internal.Write.{write_of, write_buffer};
ghost use Rattle.meifgur_c.specs.Calls.{unless, short_answer, number_in, counted_words};

use crate::answers::{SHORT_ANSWER, WRITE_ANSWER, counted_words, number_in};
use host_bytes::answer::put_words;
use image::write::write;

// Fills the front of `out` with the image of the settings, or refuses and leaves every byte. The answer has a length of its own,
// tested here: the C interface.
#[unsafe(no_mangle)]
pub extern "C" fn meifgur_write_words(settings: &[u64], out: &mut [u8], answer: &mut [u64]) -> u32
    ensures value { result ≡ unless (short_answer 3 answer.old) 40 (number_in (write_of settings.now (length out.old))) }
    ensures out_after { out.new ≡ unless (short_answer 3 answer.old) out.old
        (write_buffer settings.now out.old) }
    ensures answer_after { answer.new ≡ unless (short_answer 3 answer.old) answer.old
        (sets answer.old 0 (counted_words (write_of settings.now (length out.old)))) }
{
    if answer.len() < WRITE_ANSWER {
        return SHORT_ANSWER;
    }
    let written = write(settings, out);
    put_words(answer, &counted_words(written));
    number_in(written)
}
