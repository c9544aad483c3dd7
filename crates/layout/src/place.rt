// The place of an alarm among those of a bank, and its words in each block.
ghost use Rattle.std.specs.Prelude.{◌≡◌, ◌+◌, ◌<◌, ◌≤◌, length};
ghost use Rattle.wire.specs.Number.{part};
ghost use Rattle.layout.specs.Internal.Sizes.{places};
ghost use Rattle.layout.specs.Internal.Block.{alarm_at, state_at, mark_at};

use crate::sizes::{
    ALARM_WORDS, MARK_WORDS, MARKS_WORDS, SETTINGS_HEAD, SETTINGS_WORDS, STATE_USED, STATE_WORDS,
    STATES_HEAD, STATES_WORDS,
};

// Counted from 0, the digital alarms first.
#[derive(Clone, Copy)]
pub struct Place {
    pub index: usize,
    pub ghost below: { index < places },
}

// One function a block: where words begin, a match on the block would be longer than three lines of named sizes, and words differ in length.
impl Place {
    // The number of the alarm. `as` narrows: a place is below 36.
    pub fn number(self) -> u8
        ensures { result ≡ self.index + 1 }
    {
        (self.index + 1) as u8
    }

    // Where its words begin in the block of settings.
    pub fn settings_at(self) -> usize
        ensures { result ≡ alarm_at self.index }
    {
        SETTINGS_HEAD + ALARM_WORDS * self.index
    }

    // In the block of states.
    pub fn state_at(self) -> usize
        ensures { result ≡ state_at self.index }
    {
        STATES_HEAD + STATE_WORDS * self.index
    }

    // In the block of counts and stamps.
    pub fn mark_at(self) -> usize
        ensures { result ≡ mark_at self.index }
    {
        MARK_WORDS * self.index
    }

    // Its settings.
    pub fn settings_in(self, settings: &[u64; SETTINGS_WORDS]) -> &[u64; ALARM_WORDS]
        ensures { result.now ≡ part settings.now (alarm_at self.index) 8 }
    {
        words_at(settings, self.settings_at())
    }

    // Its state.
    pub fn state_in(self, states: &[u64; STATES_WORDS]) -> &[u64; STATE_USED]
        ensures { result.now ≡ part states.now (state_at self.index) 11 }
    {
        words_at(states, self.state_at())
    }

    // Its counts and stamps.
    pub fn marks_in(self, marks: &[u64; MARKS_WORDS]) -> &[u64; MARK_WORDS]
        ensures { result.now ≡ part marks.now (mark_at self.index) 25 }
    {
        words_at(marks, self.mark_at())
    }
}

// The words of a block from an offset on, as many as the caller takes.
fn words_at<const N: usize>(block: &[u64], at: usize) -> &[u64; N]
    requires { at + N ≤ length block.now }
    ensures { result.now ≡ part block.now at N }
{
    let Some(words) = block[at..].first_chunk() else {
        unreachable!()
    };
    words
}
