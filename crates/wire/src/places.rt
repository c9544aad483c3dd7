// Where bits stand in the two words of an alarm, its flags and the events of a scan, by what a one counts there. Bits of the whole alarm come
// first, then three for each condition.
ghost use Rattle.std.specs.Prelude.{◌≡◌, cond};
ghost use Rattle.wire.specs.Internal.Places.{six_bits};

use crate::choice::choose;

// The bits of a condition, in both words.
pub const CONDITION_BITS: u32 = 3;

// What a one counts past three bits: the flags begin with an alarm's three modes, and both words have three bits for each condition.
pub const THREE_BITS: u32 = 8;

pub const DISABLED: u32 = 1;

pub const SUPPRESSED: u32 = 2;

pub const FAULTED: u32 = 4;

// A rate sample is stored.
pub const SAMPLED: u32 = 8;

// The runs of the high and the low side go on.
pub const HIGH_RUN: u32 = 16;

pub const LOW_RUN: u32 = 32;

// Of the events: the counts were reset.
pub const COUNT_RESET: u32 = 16;

// The conditions, of both words. A digital alarm has the first one only.
pub const CONDITIONS: u32 = 512;

// What a condition keeps in the flags, here of the first one: in alarm, unacknowledged, its row of met scans goes on.
pub const HH: u32 = CONDITIONS;

pub const HH_UNACKED: u32 = 2 * CONDITIONS;

pub const HH_ROW: u32 = 4 * CONDITIONS;

pub const H: u32 = THREE_BITS * HH;

pub const L: u32 = THREE_BITS * H;

pub const LL: u32 = THREE_BITS * L;

pub const ROCPOS: u32 = THREE_BITS * LL;

pub const ROCNEG: u32 = THREE_BITS * ROCPOS;

// In an alarm's settings: of a digital one the bit that is watched for, AckRequired and Latched; of an analog one the enabled
// levels and AckRequired.
pub const CONDITION: u32 = 1;

pub const ACK_REQUIRED: u32 = 2;

pub const LATCHED: u32 = 4;

pub const HH_ENABLED: u32 = 1;

pub const H_ENABLED: u32 = 2;

pub const L_ENABLED: u32 = 4;

pub const LL_ENABLED: u32 = 8;

pub const ANALOG_ACK_REQUIRED: u32 = 16;

// A bit for each of the six, at every third place.
pub const SIX: u32 = 0o111111;

// The place of each of the six in such a word.
pub const AT_HH: u32 = 1;

pub const AT_H: u32 = 8;

pub const AT_L: u32 = 64;

pub const AT_LL: u32 = 512;

pub const AT_ROCPOS: u32 = 4096;

pub const AT_ROCNEG: u32 = 32768;

// All of these bits or none. It has no twin: what it chooses by `choose` is one constant.
pub fn every(b: bool) -> u32
    ensures { result ≡ cond b six_bits 0 }
{
    choose(b, SIX, 0)
}
