// The words of one condition: count, alarm stamp, ack stamp, return stamp.
ghost use Rattle.std.specs.Prelude.{◌≡◌};
ghost use Rattle.condition.specs.Internal.Mark.{marks_after};
ghost use Rattle.marks.specs.Internal.Marks.{marks_at, marks_words, turn_by};

use condition::mark::{ack_stamp, count_after};
use wire::bits::is_set;
use wire::choice::choose;
use wire::places::THREE_BITS;

// The words of a condition.
pub const CONDITION_WORDS: usize = 4;

// What a condition's three bits of an event word say, by what a one counts there.
const ACKNOWLEDGED: u32 = 1;

const RETURNED: u32 = 2;

const ACTIVATED: u32 = 4;

// What a scan did to a condition: whether it reset the counts, its events in the three lowest bits, AckRequired, when the row of scans that
// met it began, and the scan's time.
#[derive(Clone, Copy)]
pub struct Change {
    pub reset: bool,
    pub events: u32,
    pub required: bool,
    pub start: u64,
    pub time: u64,
}

// Marks that in the condition's words. Without events and a reset they stay as they are, and none is touched.
pub fn mark_condition(words: &mut [u64; CONDITION_WORDS], change: Change)
    ensures { words.new ≡ marks_words (marks_after (turn_by change.reset change.events change.required change.start change.time)
        (marks_at words.old 0)) }
{
    let Change {
        reset,
        events,
        required,
        start,
        time,
    } = change;
    if !reset & (events % THREE_BITS == 0) {
        return;
    }
    let acknowledged = is_set(events, ACKNOWLEDGED);
    let returned = is_set(events, RETURNED);
    let activated = is_set(events, ACTIVATED);
    let [count, alarm, ack, back] = *words;
    *words = [
        count_after(reset, activated, count),
        choose(activated, start, alarm),
        ack_stamp(acknowledged, activated, required, start, time, ack),
        choose(returned, time, back),
    ];
}
