// Counts and stamps of a condition, from the events of a scan.
ghost use Rattle.std.specs.Prelude.{◌≡◌};
ghost use Rattle.history.specs.Internal.Condition.{count_up, count_after};
ghost use Rattle.condition.specs.Internal.Mark.{ack_stamp_after};

// The highest count.
const MOST_COUNT: u64 = 2_147_483_647;

fn count_up(n: u64) -> u64
    ensures { result ≡ count_up n }
{
    if n < MOST_COUNT { n + 1 } else { n }
}

// A count reset comes first, then the activation.
pub fn count_after(reset: bool, activated: bool, n: u64) -> u64
    ensures { result ≡ count_after reset activated n }
{
    if reset {
        return u64::from(activated);
    }
    if activated { count_up(n) } else { n }
}

// The ack time after a scan: an activation that needs no acknowledgement is acknowledged as of its own start.
pub fn ack_stamp(
    acknowledged: bool,
    activated: bool,
    required: bool,
    start: u64,
    time: u64,
    old: u64,
) -> u64
    ensures { result ≡ ack_stamp_after acknowledged activated required start time old }
{
    if activated & !required {
        return start;
    }
    if acknowledged { time } else { old }
}
