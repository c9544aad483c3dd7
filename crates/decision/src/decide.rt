// The six conditions of an analog alarm, all at once: each word has a bit for each, at every third place.
ghost use Rattle.std.specs.Prelude.{◌≡◌, ◌+◌, ◌*◌, ◌≤◌, ◌<◌};
ghost use Rattle.decision.specs.Internal.Cells.{cells_of};
ghost use Rattle.wire.specs.Internal.Places.{six_bits, six_range};

use wire::places::{HH, HH_UNACKED, SIX, every};

// Bits of the six conditions: what each keeps, three a condition, and its events, three a condition.
#[derive(Clone, Copy)]
pub struct Cells {
    pub kept: u32,
    pub events: u32,
}

// Decides the six conditions from the state before the scan. A struct of the parameters would be made for one call alone.
pub fn decide(
    flags: u32,
    enabled: bool,
    met: u32,
    frees: u32,
    ready: u32,
    acks: u32,
    required: bool,
) -> Cells
    ensures { (result ≡ cells_of flags enabled met frees ready acks required) × (result.kept < six_range) × (result.events < six_range) }
{
    let on = every(enabled);
    let alarm = (flags / HH) & on;
    let unacked = (flags / HH_UNACKED) & on;
    let row = met & on;
    let acknowledges = unacked & acks;
    let returns = alarm & (frees & (row ^ SIX));
    let activates = (row & ready) & (alarm ^ SIX);
    let alarm_after = activates | (alarm ^ returns);
    let held = (activates ^ SIX) & (unacked ^ acknowledges);
    let unacked_after = (activates & every(required)) | held;
    Cells {
        kept: threes(alarm_after, unacked_after, row),
        events: threes(acknowledges, returns, activates),
    }
}

// Three words, the bits of each condition side by side.
fn threes(a: u32, b: u32, c: u32) -> u32
    requires { (a ≤ six_bits) × (b ≤ six_bits) × (c ≤ six_bits) }
    ensures { (result ≡ a + 2 * b + 4 * c) × (result < six_range) }
{
    a + 2 * b + 4 * c
}
