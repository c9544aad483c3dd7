// A bank made of a settings image, in words that a caller lends.
ghost use Rattle.std.specs.Prelude.{◌≡◌, replicate};
ghost use Rattle.layout.specs.Internal.Sizes.{marks_size, states_size};
ghost use Rattle.layout.specs.Internal.Block.{settings_words};
ghost use Rattle.settings.specs.Internal.Replies.{reply_of};
ghost use Rattle.reader.specs.Read.{read_of, settings_of};
ghost use Rattle.bank.specs.Internal.Words.{words_in};
ghost use Rattle.bank.specs.Internal.Load.{load_reply, load_words};

use layout::block::{Block, clear, put_settings};
use layout::sizes::{MARKS_WORDS, SETTINGS_WORDS, STATES_WORDS};
use reader::read::read;
use settings::refusals::Refusal;
use settings::types::no_alarms;

// Writes the three blocks; of a refused image, a bank without alarms. A struct of three blocks that are written would be made for this call
// alone.
fn load_blocks(
    image: &[u8],
    settings: &mut [u64; SETTINGS_WORDS],
    states: &mut [u64; STATES_WORDS],
    marks: &mut [u64; MARKS_WORDS],
) -> Result<(), Refusal>
    ensures value { result ≡ reply_of (read_of image.now) }
    ensures settings_after { settings.new ≡ settings_words (settings_of image.now) }
    ensures states_after { states.new ≡ replicate states_size 0 }
    ensures marks_after { marks.new ≡ replicate marks_size 0 }
{
    let given = read(image);
    put_settings(settings, given.unwrap_or_else(|_| no_alarms()));
    clear(states);
    clear(marks);
    given.map(|_| ())
}

// Writes the bank of a settings image, before its first scan; of a refused image, a bank without alarms. The three blocks come one by one,
// as the exported calls are lent them, and their lengths are tested here: no function can hand out arrays of several `&mut` parameters.
pub fn load(
    image: &[u8],
    settings: &mut [u64],
    states: &mut [u64],
    marks: &mut [u64],
) -> Result<(), Refusal>
    ensures value { result ≡ load_reply (words_in settings.old states.old marks.old) image.now }
    ensures settings_after { settings.new ≡ (load_words (words_in settings.old states.old marks.old)
        image.now).settings }
    ensures states_after { states.new ≡ (load_words (words_in settings.old states.old marks.old)
        image.now).states }
    ensures marks_after { marks.new ≡ (load_words (words_in settings.old states.old marks.old) image.now).marks }
{
    let Some(settings) = settings.as_mut_array() else {
        return Err(Block::Settings.missing());
    };
    let Some(states) = states.as_mut_array() else {
        return Err(Block::States.missing());
    };
    let Some(marks) = marks.as_mut_array() else {
        return Err(Block::Marks.missing());
    };
    load_blocks(image, settings, states, marks)
}
