// A bank in blocks of its own.
ghost use Rattle.std.specs.Prelude.{◌≡◌, ◌-◌, [], ◌∷◌, length};
ghost use Rattle.bank.specs.Internal.Load.{load_reply, load_words};
ghost use Rattle.scan.specs.Internal.Words.{answer_of, scanned_words, buffer_of};
ghost use Rattle.report.specs.Internal.Report.{report_in};
ghost use Rattle.image.specs.Internal.Write.{write_of, write_buffer};
ghost use Rattle.layout.specs.Internal.Block.{counts_in};
ghost use Rattle.settings.specs.Counts.{form_at};
ghost use Rattle.bank_text.specs.Internal.Owned.{words_of, blank_words, alarms_of, said_of};

use bank::load::load;
use image::write::write;
use layout::block::counts_in;
use layout::sizes::{MARKS_WORDS, SETTINGS_WORDS, STATES_WORDS};
use report::report::{AlarmReport, report};
use scan::scan::scan;
use settings::counts::{Counts, form_at, good_counts};
use settings::refusals::Refusal;
use settings::types::Form;

#[derive(Drop)]
pub struct Bank {
    settings: [u64; SETTINGS_WORDS],
    states: [u64; STATES_WORDS],
    marks: [u64; MARKS_WORDS],
}

// The settings image of a bank that has no alarms.
const NO_ALARMS: [u8; 2] = [0, 0];

impl Bank {
    // A bank that has no alarms.
    pub fn new() -> Bank
        ensures { words_of result ≡ load_words blank_words (0 ∷ 0 ∷ []) }
    {
        let mut bank = Bank {
            settings: [0; SETTINGS_WORDS],
            states: [0; STATES_WORDS],
            marks: [0; MARKS_WORDS],
        };
        let _ = bank.load(&NO_ALARMS);
        bank
    }

    // Makes a new bank of a settings image; of one that is refused, a bank that has no alarms.
    pub fn load(&mut self, image: &[u8]) -> Result<(), Refusal>
        ensures value { result ≡ load_reply (words_of self.old) image.now }
        ensures words_after { words_of self.new ≡ load_words (words_of self.old) image.now }
    {
        load(image, &mut self.settings, &mut self.states, &mut self.marks)
    }

    // Runs a scan, puts its events to the front of `events`, and answers how many they are.
    pub fn scan(&mut self, bytes: &[u8], events: &mut [u8]) -> Result<usize, Refusal>
        ensures value { result ≡ answer_of (words_of self.old) bytes.now (length events.old) }
        ensures settings_after { (words_of self.new).settings ≡ (words_of self.old).settings }
        ensures states_after { (words_of self.new).states ≡ (scanned_words (words_of self.old) bytes.now (length events.old)).states }
        ensures marks_after { (words_of self.new).marks ≡ (scanned_words (words_of self.old) bytes.now (length events.old)).marks }
        ensures events_after { events.new ≡ buffer_of (words_of self.old) bytes.now events.old }
    {
        scan(
            &self.settings,
            &mut self.states,
            &mut self.marks,
            bytes,
            events,
        )
    }

    // What the bank says of the alarm with a number.
    pub fn report(&self, alarm: usize) -> Result<AlarmReport, Refusal>
        ensures { result ≡ said_of (report_in (words_of self.now) alarm) }
    {
        let found = report(&self.settings, &self.states, &self.marks, alarm);
        found.reply?;
        Ok(found)
    }

    // Writes the settings image to the front of `image`, and answers its length.
    pub fn write(&self, image: &mut [u8]) -> Result<usize, Refusal>
        ensures value { result ≡ write_of (words_of self.now).settings (length image.old) }
        ensures image_after { image.new ≡ write_buffer (words_of self.now).settings image.old }
    {
        write(&self.settings, image)
    }

    pub fn counts(&self) -> Counts
        ensures { result ≡ counts_in (words_of self.now).settings }
    {
        counts_in(&self.settings)
    }

    // How many alarms the bank has. (A load writes no counts that a bank may not have)
    pub fn alarms(&self) -> usize
        ensures { result ≡ alarms_of (words_of self.now) }
    {
        match good_counts(self.counts()) {
            Some(good) => good.in_all(),
            None => 0,
        }
    }

    // The form of the alarm with a number, if there is one.
    pub fn form(&self, alarm: usize) -> Form
        ensures { result ≡ form_at (counts_in (words_of self.now).settings) (alarm - 1) }
    {
        form_at(self.counts(), alarm.saturating_sub(1))
    }
}
