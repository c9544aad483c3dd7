// Why a call is turned back, and where.
ghost use Rattle.std.specs.Prelude.{◌≡◌};
ghost use Rattle.settings.specs.Refusals.{number_of, refusal};

// The reasons, as document 01's table has them: a name, a number, and what the place is.
#[derive(Clone, Copy)]
pub enum Reason {
    // A count byte is missing or a record incomplete; its offset.
    Incomplete = 1,
    // A count is over 12; its offset.
    TooMany = 2,
    // The record's offset, as for the next two.
    UnknownFlag = 3,
    OutOfRange = 4,
    // The rules of limits and Deadband.
    WrongLimits = 5,
    // The offset of the first byte left over.
    LeftOver = 6,
    // A whole scan record, place 0, as for the next.
    WrongLength = 7,
    EarlierTime = 8,
    // A digital byte that is not 0 or 1; the alarm, as for the next two.
    NotABit = 9,
    BadReal = 10,
    // A command bit that the alarm's kind lacks.
    UnknownCommand = 11,
    // An event buffer too short for the scan's events; place 0, as for the next two.
    EventsTooLong = 12,
    // A buffer shorter than the image.
    ImageTooLong = 13,
    NoSuchAlarm = 14,
    // Lent blocks that hold no bank; which block: 0 settings, 1 states, 2 counts and stamps.
    NoBank = 42,
}

// What a call that is turned back answers.
#[derive(Clone, Copy)]
pub struct Refusal {
    pub reason: Reason,
    pub place: usize,
}

impl Reason {
    // `as` takes the number of an enum.
    pub fn number(self) -> u32
        ensures { result ≡ number_of self }
    {
        self as u32
    }

    pub fn at(self, place: usize) -> Refusal
        ensures { result ≡ refusal self place }
    {
        Refusal {
            reason: self,
            place,
        }
    }
}
