// The blocks by name, and the block of settings, 292 words.
ghost use Rattle.std.specs.Prelude.{◌≡◌, true, false, length, get_or, replicate, MatchOption};
ghost use Rattle.std.proofs.lemmas.List.Edits.{sets};
ghost use Rattle.settings.specs.Counts.{all_most};
ghost use Rattle.layout.specs.Internal.Words.{alarm_in, alarm_words, form_of};
ghost use Rattle.layout.specs.Internal.Block.{layout_word, alarm_at, head_words, alarms_words, settings_words, Says, counts_in, is_block};
ghost use Rattle.layout.specs.Internal.Block.{no_bank, block_number};

use crate::place::Place;
use crate::put::alarm_words;
use crate::sizes::{
    ALARM_WORDS, ANALOG_COUNT, DIGITAL_COUNT, LAYOUT_WORD, SETTINGS_HEAD, SETTINGS_WORDS,
};
use settings::counts::{ALARMS, Counts};
use settings::refusals::{Reason, Refusal};
use settings::types::{Alarm, Settings};

// The blocks of a bank, by the place of a refusal.
#[derive(Clone, Copy)]
pub enum Block {
    Settings,
    States,
    Marks,
}

impl Block {
    // What is answered where lent words are no such block. `as` takes the number of an enum.
    pub fn missing(self) -> Refusal
        ensures { result ≡ no_bank (block_number self) }
    {
        Reason::NoBank.at(self as usize)
    }
}

// The words of a block of settings that a call wrote: it has the block's length, and the layout word in front.
pub fn block_in(words: &[u64]) -> Option<&[u64; SETTINGS_WORDS]>
    ensures { MatchOption result (is_block words.now ≡ false) (λ block. (is_block words.now ≡ true) × (block.now ≡ words.now)) }
{
    let block = words.as_array()?;
    if block[0] == LAYOUT_WORD {
        Some(block)
    } else {
        None
    }
}

// The counts that a block says. Here and where they are written `as` stays: no From stands between u64 and usize.
pub fn counts_in(words: &[u64]) -> Counts
    ensures { result ≡ counts_in words.now }
{
    Counts {
        digital: word_at(words, DIGITAL_COUNT) as usize,
        analog: word_at(words, ANALOG_COUNT) as usize,
    }
}

// The word at a place; 0 behind the last. A name of its own, so that callers read one clause and no Option.
fn word_at(words: &[u64], at: usize) -> u64
    ensures { result ≡ get_or words.now at 0 }
{
    words.get(at).copied().unwrap_or(0)
}

// Every word 0, so that no place keeps what stood there. A name of its own, since `fill` promises this by a clause on clones.
pub fn clear(words: &mut [u64])
    ensures { words.new ≡ replicate (length words.old) 0 }
{
    words.fill(0);
}

// The layout word, the counts, and 0 where a third count has room.
fn put_head(words: &mut [u64; SETTINGS_WORDS], counts: Counts)
    ensures { words.new ≡ sets words.old 0 (head_words counts) }
{
    let head = [LAYOUT_WORD, counts.digital as u64, counts.analog as u64, 0];
    words[..SETTINGS_HEAD].copy_from_slice(&head);
}

// Writes an alarm at its place. The words there say the alarm again.
fn put_alarm(words: &mut [u64; SETTINGS_WORDS], place: Place, alarm: Alarm)
    ensures words_after { words.new ≡ sets words.old (alarm_at place.index) (alarm_words alarm) }
    ensures read_back { alarm_in (form_of alarm.kind) words.new (alarm_at place.index) ≡ alarm }
{
    let at = place.settings_at();
    words[at..at + ALARM_WORDS].copy_from_slice(&alarm_words(alarm));
}

// Writes each alarm. The array's length is said for the caller, who holds it in a struct and doesn't see it.
fn put_alarms(words: &mut [u64; SETTINGS_WORDS], alarms: [Alarm; ALARMS])
    ensures words_after { words.new ≡ sets words.old 4 (alarms_words alarms) }
    ensures says { Says alarms all_most words.new }
    ensures alarms_len { length alarms ≡ all_most }
{
    for (index, alarm) in alarms.iter().enumerate() {
        put_alarm(words, Place { index }, *alarm);
    }
}

// Writes the whole block. The counts are written as they are, and the places behind the 24 of settings are 0.
pub fn put_settings(words: &mut [u64; SETTINGS_WORDS], settings: Settings)
    ensures words_after { words.new ≡ settings_words settings }
    ensures says { Says settings.alarms all_most words.new }
    ensures head { (get_or words.new 0 0 ≡ layout_word) × (counts_in words.new ≡ settings.counts) }
{
    clear(words);
    put_head(words, settings.counts);
    put_alarms(words, settings.alarms);
}
