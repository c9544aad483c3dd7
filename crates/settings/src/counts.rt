// How many alarms of each form a bank has.
ghost use Rattle.std.specs.Prelude.{◌≡◌, ◌+◌, ◌*◌, ◌≤◌, true, false, MatchOption};
ghost use Rattle.settings.specs.Counts.{are_good, in_all, form_at};
ghost use Rattle.settings.specs.Internal.Few.{Few};

use crate::types::Form;

pub const MOST: usize = 12;

// And of both forms together.
pub const ALARMS: usize = 2 * MOST;

#[derive(Clone, Copy)]
pub struct Counts {
    pub digital: usize,
    pub analog: usize,
}

// Counts that a bank may have.
#[derive(Clone, Copy)]
pub struct GoodCounts {
    pub counts: Counts,
    pub ghost few: { Few counts },
}

// The counts, if a bank may have so many.
pub fn good_counts(counts: Counts) -> Option<GoodCounts>
    ensures { MatchOption result (are_good counts ≡ false) (λ good. (are_good counts ≡ true) × (good.counts ≡ counts)) }
{
    if (counts.digital <= MOST) & (counts.analog <= MOST) {
        Some(GoodCounts { counts })
    } else {
        None
    }
}

impl GoodCounts {
    pub fn in_all(self) -> usize
        ensures { result ≡ in_all self.counts }
    {
        self.counts.digital + self.counts.analog
    }

    // What the alarms of a bank come to, where one of each form comes to so much.
    pub fn sum_of(self, digital: usize, analog: usize) -> usize
        requires { (digital ≤ 65536) × (analog ≤ 65536) }
        ensures { result ≡ digital * self.counts.digital + analog * self.counts.analog }
    {
        digital * self.counts.digital + analog * self.counts.analog
    }
}

// The form of the alarm at a place.
pub fn form_at(counts: Counts, place: usize) -> Form
    ensures { result ≡ form_at counts place }
{
    if place < counts.digital {
        Form::Digital
    } else {
        Form::Analog
    }
}
