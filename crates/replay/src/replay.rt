// Scan records one after the other, on the words of one bank and one event buffer.
ghost use Rattle.std.specs.Prelude.{◌≡◌, ◌+◌, ◌^◌, ◌≤◌, ◌<◌, length};
ghost use Rattle.bank.specs.Internal.Words.{words_in};
ghost use Rattle.replay.specs.Replay.{none_yet, counted, replay_of, replayed_of, replayed_words, replayed_buffer};

use bank::fit::fit;
use event::write::EVENT_SIZE;
use layout::block::counts_in;
use scan::scan::scan;
use scan_record::check::record_length;
use settings::refusals::Refusal;

// Which record was the first that was refused, from 0, and why.
#[derive(Clone, Copy)]
pub struct FirstRefusal {
    pub refusal: Refusal,
    pub index: usize,
}

// How the records were answered: how many events were written, how many records were refused, and the first of these.
#[derive(Clone, Copy)]
pub struct Tally {
    pub events: usize,
    pub refused: usize,
    pub first: Option<FirstRefusal>,
}

// Before the first record. By name and no derived default, since a contract names it.
pub fn none_yet() -> Tally
    ensures { result ≡ none_yet }
{
    Tally {
        events: 0,
        refused: 0,
        first: None,
    }
}

// After the record with this index, by its answer: the first refusal is kept.
pub fn count_answer(done: Tally, answer: Result<usize, Refusal>, index: usize) -> Tally
    requires { (done.refused ≤ index) × (index + 1 < 2 ^ 64) × ((counted done answer index).events < 2 ^ 64) }
    ensures { result ≡ counted done answer index }
{
    match answer {
        Ok(number) => Tally {
            events: done.events + number,
            ..done
        },
        Err(refusal) => Tally {
            refused: done.refused + 1,
            first: done.first.or(Some(FirstRefusal { refusal, index })),
            ..done
        },
    }
}

// Runs each record of `bytes` as a scan of its own, and passes over those that are refused. The three blocks are handed on as they came: each
// scan looks at them for itself.
fn run(
    settings: &[u64],
    states: &mut [u64],
    marks: &mut [u64],
    bytes: &[u8],
    out: &mut [u8],
) -> Tally
    ensures value { result ≡ (replay_of (words_in settings.now states.old marks.old) bytes.now
        out.old).tally }
    ensures states_after { states.new ≡ (replay_of (words_in settings.now states.old marks.old) bytes.now
        out.old).words.states }
    ensures marks_after { marks.new ≡ (replay_of (words_in settings.now states.old marks.old) bytes.now
        out.old).words.marks }
    ensures out_after { out.new ≡ (replay_of (words_in settings.now states.old marks.old) bytes.now
        out.old).buffer }
{
    let size = record_length(counts_in(settings));
    let mut done = none_yet();
    for (index, rec) in bytes.chunks(size).enumerate() {
        let used = EVENT_SIZE * done.events;
        let left = &mut out[used..];
        let answer = scan(settings, states, marks, rec, left);
        done = count_answer(done, answer, index);
    }
    done
}

// Runs the records of `bytes` on the bank in these words; words that are no bank are refused and left as they are. The blocks come one by one,
// as the exported calls are lent them.
pub fn replay(
    settings: &[u64],
    states: &mut [u64],
    marks: &mut [u64],
    bytes: &[u8],
    out: &mut [u8],
) -> Result<Tally, Refusal>
    ensures value { result ≡ replayed_of (words_in settings.now states.old marks.old) bytes.now out.old }
    ensures states_after { states.new ≡ (replayed_words (words_in settings.now states.old marks.old)
        bytes.now out.old).states }
    ensures marks_after { marks.new ≡ (replayed_words (words_in settings.now states.old marks.old)
        bytes.now out.old).marks }
    ensures out_after { out.new ≡ replayed_buffer (words_in settings.now states.old marks.old)
        bytes.now out.old }
{
    fit(settings, states, marks)?;
    Ok(run(settings, states, marks, bytes, out))
}
