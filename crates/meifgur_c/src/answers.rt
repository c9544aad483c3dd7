// What a call answers: the number of a refusal as the result, and words. `as` stays here: no From stands between usize and u64.
ghost use Rattle.std.specs.Prelude.{◌≡◌};
ghost use Rattle.meifgur_c.specs.Calls.{number_in, refusal_words, reply_words, counted_words, load_words, replay_words};

use replay::replay::Tally;
use settings::counts::Counts;
use settings::refusals::Refusal;

// The codes, and how many words each call fills, are numbers: the C interface has them (include/meifgur.h). Each call looks at the length of
// its answer itself, since it returns there.

// The answer has fewer words than the call fills.
pub const SHORT_ANSWER: u32 = 40;

// The buffer is shorter than a report.
pub const SHORT_REPORT: u32 = 41;

// The words that each call fills.
pub const LOAD_ANSWER: usize = 4;

pub const SCAN_ANSWER: usize = 3;

pub const REPORT_ANSWER: usize = 2;

pub const WRITE_ANSWER: usize = 3;

pub const REPLAY_ANSWER: usize = 5;

// The number of a refusal, or 0.
pub fn number_in<T: Copy>(answer: Result<T, Refusal>) -> u32
    ensures { result ≡ number_in answer }
{
    match answer {
        Ok(_) => 0,
        Err(refusal) => refusal.reason.number(),
    }
}

// Number and place of a refusal.
fn refusal_words(refusal: Refusal) -> [u64; 2]
    ensures { result ≡ refusal_words refusal }
{
    [u64::from(refusal.reason.number()), refusal.place as u64]
}

// The same, or 0 and 0.
pub fn reply_words(reply: Result<(), Refusal>) -> [u64; REPORT_ANSWER]
    ensures { result ≡ reply_words reply }
{
    match reply {
        Ok(()) => [0, 0],
        Err(refusal) => refusal_words(refusal),
    }
}

// The same, and how many alarms there are of each kind.
pub fn load_words(reply: Result<(), Refusal>, counts: Counts) -> [u64; LOAD_ANSWER]
    ensures { result ≡ load_words reply counts }
{
    match reply {
        Ok(()) => [0, 0, counts.digital as u64, counts.analog as u64],
        Err(refusal) => {
            let [number, place] = refusal_words(refusal);
            [number, place, 0, 0]
        }
    }
}

// The same, and how many events there are, or how long an image is.
pub fn counted_words(answer: Result<usize, Refusal>) -> [u64; SCAN_ANSWER]
    ensures { result ≡ counted_words answer }
{
    match answer {
        Ok(number) => [0, 0, number as u64],
        Err(refusal) => {
            let [number, place] = refusal_words(refusal);
            [number, place, 0]
        }
    }
}

// How many events and refusals there are, and number, place and index of the first refusal. Words that are no bank are it.
pub fn replay_words(answer: Result<Tally, Refusal>) -> [u64; REPLAY_ANSWER]
    ensures { result ≡ replay_words answer }
{
    match answer {
        Ok(done) => {
            let events = done.events as u64;
            let refused = done.refused as u64;
            match done.first {
                None => [events, refused, 0, 0, 0],
                Some(first) => {
                    let [number, place] = refusal_words(first.refusal);
                    [events, refused, number, place, first.index as u64]
                }
            }
        }
        Err(refusal) => {
            let [number, place] = refusal_words(refusal);
            [0, 0, number, place, 0]
        }
    }
}
