// The check of a whole scan record.
ghost use Rattle.std.specs.Prelude.{◌≡◌, ◌&&◌, true, false, eqb, ◌+◌, ◌*◌, ◌-◌, ◌≤◌, length, MatchOption};
ghost use Rattle.scan_record.specs.Part.{entry_size, record_size};
ghost use Rattle.settings.specs.Counts.{are_good, in_all};
ghost use Rattle.scan_record.specs.Internal.Size.{length_of};
ghost use Rattle.scan_record.specs.Internal.Forms.{check_form};
ghost use Rattle.scan_record.specs.Check.{check_from, check_record};

use crate::entry::entry_at;
use crate::part::{ANALOG_PART, DIGITAL_PART, TIME_SIZE, analog_begin};
use settings::counts::{Counts, GoodCounts, good_counts};
use settings::refusals::{Reason, Refusal};
use settings::types::Form;
use wire::number::LittleEndian;

// The length of a record. A name of its own, so that callers read one clause and no sum.
fn length_of(good: GoodCounts) -> usize
    ensures { result ≡ record_size good.counts }
{
    TIME_SIZE + good.sum_of(DIGITAL_PART, ANALOG_PART)
}

// The length of the records of a bank with these counts.
pub fn record_length(counts: Counts) -> usize
    ensures { (result ≡ length_of counts) × (8 ≤ result) }
{
    match good_counts(counts) {
        Some(good) => length_of(good),
        None => TIME_SIZE,
    }
}

// Checks the alarms of one form, at the places from `first` to before `end`, whose parts begin at `begin`, in number order, and answers
// the first refusal. Each call names its form, so that no turn of the loop has to ask for it. That the loop ends by `break` is a rule of the
// project (document 01, the right form for each place). The offset goes on from part to part, as in the definition, which knows
// the places that are left and not how many parts are passed. Its caller works out begin and places for this call, so no struct of them is
// plainer.
fn check_form(
    bytes: &[u8],
    form: Form,
    begin: usize,
    first: usize,
    end: usize,
) -> Result<(), Refusal>
    requires { (first ≤ end) × (begin + entry_size form * (end - first) ≤ length bytes.now) }
    ensures { result ≡ check_form form bytes.now (end - first) first begin }
{
    let mut reply = Ok(());
    let mut at = begin;
    for place in first..end {
        match entry_at(bytes, at, form, place + 1) {
            Ok(entry) => at = entry.next,
            Err(refusal) => {
                reply = Err(refusal);
                break;
            }
        }
    }
    reply
}

// Checks each alarm in number order, the digital ones first, and answers the first refusal, of a record that has the
// right length.
fn check_alarms(bytes: &[u8], good: GoodCounts) -> Result<(), Refusal>
    requires { length bytes.now ≡ record_size good.counts }
    ensures { result ≡ check_from bytes.now good.counts (in_all good.counts) 0 8 }
{
    let digital = good.counts.digital;
    check_form(bytes, Form::Digital, TIME_SIZE, 0, digital)?;
    let begin = analog_begin(good);
    check_form(bytes, Form::Analog, begin, digital, good.in_all())
}

// The counts, if a bank may have them and its records have `len` bytes.
fn whole_counts(counts: Counts, len: usize) -> Option<GoodCounts>
    ensures { MatchOption result (are_good counts && eqb len (record_size counts) ≡ false)
        (λ good. (are_good counts && eqb len (record_size counts) ≡ true) × (good.counts ≡ counts)) }
{
    let good = good_counts(counts)?;
    if len == length_of(good) {
        Some(good)
    } else {
        None
    }
}

// Checks a record against a bank's counts and the time of the last accepted scan.
pub fn check_record(bytes: &[u8], counts: Counts, last: u64) -> Result<(), Refusal>
    ensures { result ≡ check_record counts last bytes.now }
{
    let Some(good) = whole_counts(counts, bytes.len()) else {
        return Err(Reason::WrongLength.at(0));
    };
    if u64::get(bytes, 0) < last {
        return Err(Reason::EarlierTime.at(0));
    }
    check_alarms(bytes, good)
}
