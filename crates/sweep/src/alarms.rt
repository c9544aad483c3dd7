// What a checked record does to all alarms of a bank: digital ones first, then analog ones. Hints on inlining as in crates/scan: a loop for each
// form, with no call in it where nothing happens.
ghost use Rattle.std.specs.Prelude.{◌≡◌, ◌+◌, ◌*◌, ◌≤◌, length};
ghost use Rattle.std.proofs.lemmas.List.Edits.{sets};
ghost use Rattle.settings.specs.Counts.{all_most};
ghost use Rattle.layout.specs.Internal.Block.{counts_in};
ghost use Rattle.scan_record.specs.Part.{time_of, offset_of};
ghost use Rattle.scan_record.specs.Internal.Size.{entry_size};
ghost use Rattle.bank.specs.Internal.Blocks.{kept_words, SameWords};
ghost use Rattle.sweep.specs.Internal.Sweep.{HaveForm, Ready, most_bytes, stepped_from, marked_from, log_from, log_after, words_after};

use crate::part::{Group, Part, Scan};
use crate::place::step_place;
use bank::blocks::Kept;
use layout::place::Place;
use layout::sizes::{LAST_TIME, SETTINGS_WORDS};
use scan_record::part::{TIME_SIZE, analog_begin, part_size};
use settings::counts::GoodCounts;
use settings::types::Form;
use wire::number::LittleEndian;

// Steps the alarms of one form. Their events go to `out` from `start` on, as in the writer of event records; answers the offset past them.
// A part's offset goes on from the last one's: worked out for each place, as in the definition, it would be two products for each alarm
// (`offset-next` says that both are the same). That the group ends within all places is a clause and no type: groups are made below alone.
#[inline(always)]
fn scan_group(
    scan: &Scan<'_>,
    group: Group<'_>,
    kept: &mut Kept<'_>,
    out: &mut [u8],
    start: usize,
) -> usize
    requires timed { scan.now.time ≡ time_of group.bytes.now }
    requires few { group.first + group.count ≤ all_most }
    requires parts { (group.at ≡ offset_of (counts_in scan.now.settings.now) group.first) ×
        (group.at + entry_size group.form * group.count ≤ length group.bytes.now) }
    requires have_form { HaveForm (counts_in scan.now.settings.now) group.first group.count group.form }
    requires room { start + length (log_from (kept_words scan.now.settings.now kept.old) group.bytes.now group.first group.count) ≤ length out.old }
    ensures value { result ≡ start
        + length (log_from (kept_words scan.now.settings.now kept.old) group.entry.bytes.now group.entry.first group.entry.count) }
    ensures same { SameWords kept.old kept.new }
    ensures states_after { kept.new.states.now
        ≡ stepped_from (kept_words scan.now.settings.now kept.old) group.entry.bytes.now group.entry.first group.entry.count }
    ensures marks_after { kept.new.marks.now
        ≡ marked_from (kept_words scan.now.settings.now kept.old) group.entry.bytes.now group.entry.first group.entry.count }
    ensures out_after { out.new
        ≡ sets out.old start (log_from (kept_words scan.now.settings.now kept.old) group.entry.bytes.now group.entry.first group.entry.count) }
{
    // A copy, since what stands behind a reference would be read again for each alarm.
    let scan = *scan;
    let form = group.form;
    let mut at = group.at;
    let mut used = start;
    for n in 0..group.count {
        let index = group.first + n;
        let part = Part {
            form,
            place: Place { index },
            bytes: group.bytes,
            at,
        };
        used = step_place(&scan, part, kept, out, used);
        at += part_size(form);
    }
    used
}

// Runs a checked record where the buffer suffices, whatever the events are: steps every alarm with its part, writes the
// events to the front of `out`, keeps the time, and answers how many bytes the events have.
#[inline(always)]
pub fn scan_alarms(
    settings: &[u64; SETTINGS_WORDS],
    kept: &mut Kept<'_>,
    bytes: &[u8],
    out: &mut [u8],
    good: GoodCounts,
) -> usize
    requires ready { Ready (kept_words settings.now kept.old) bytes.now good.counts }
    requires room { most_bytes good.counts ≤ length out.old }
    ensures value { result ≡ length (log_after (kept_words settings.now kept.old) bytes.now) }
    ensures same { SameWords kept.old kept.new }
    ensures states_after { kept.new.states.now ≡ (words_after (kept_words settings.now kept.old) bytes.now).states }
    ensures marks_after { kept.new.marks.now ≡ (words_after (kept_words settings.now kept.old) bytes.now).marks }
    ensures out_after { out.new ≡ sets out.old 0 (log_after (kept_words settings.now kept.old) bytes.now) }
{
    let time = u64::get(bytes, 0);
    let scan = Scan { settings, time };
    let counts = good.counts;
    let digital = Group {
        form: Form::Digital,
        first: 0,
        count: counts.digital,
        bytes,
        at: TIME_SIZE,
    };
    let half = scan_group(&scan, digital, kept, out, 0);
    let analog = Group {
        form: Form::Analog,
        first: counts.digital,
        count: counts.analog,
        bytes,
        at: analog_begin(good),
    };
    let used = scan_group(&scan, analog, kept, out, half);
    kept.states[LAST_TIME] = time;
    used
}
