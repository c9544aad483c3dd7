// What an alarm's command word commands in a scan: what rises, acknowledgements and resets.
ghost use Rattle.std.specs.Prelude.{◌≡◌, ◌/◌, ◌%◌, ◌<◌, not, ◌&&◌, ◌||◌, eqb};
ghost use Rattle.wire.specs.Internal.Words.{word_of, spread};
ghost use Rattle.condition.specs.Command.{resets, acks_all};
ghost use Rattle.condition.specs.Internal.Outcome.{ack_bits};

use crate::bits::{OPER_ACK, OPER_ACK_HH, OPER_RESET, PROG_ACK, PROG_ACK_HH, PROG_RESET};
use wire::bits::{is_set, only_in, spread_of};

// An alarm's command word in a scan, and the one of the last accepted scan before it.
#[derive(Clone, Copy)]
pub struct Command {
    pub word: u32,
    pub previous: u32,
}

impl Command {
    // Whether the bit is set that was clear in the word before.
    pub fn rises(self, unit: u32) -> bool
        requires { 0 < unit }
        ensures { result ≡ eqb (self.word / unit % 2) 1 && not (eqb (self.previous / unit % 2) 1) }
    {
        is_set(self.word, unit) & !is_set(self.previous, unit)
    }

    // Whether the program's bit rises, or the operator's is set.
    fn acts(self, program: u32, operator: u32) -> bool
        requires { (0 < program) × (0 < operator) }
        ensures { result ≡ (eqb (self.word / program % 2) 1 && not (eqb (self.previous / program % 2) 1) || eqb (self.word / operator % 2) 1) }
    {
        self.rises(program) | is_set(self.word, operator)
    }

    pub fn acks_all(self) -> bool
        ensures { result ≡ acks_all self.word self.previous }
    {
        self.acts(PROG_ACK, OPER_ACK)
    }

    pub fn resets(self) -> bool
        ensures { result ≡ resets self.word self.previous }
    {
        self.acts(PROG_RESET, OPER_RESET)
    }

    // A bit for each condition of an analog alarm, HH, H, L, LL, ROCPos, ROCNeg, at every third place. Most scans command
    // nothing, and acknowledge nothing.
    pub fn ack_word(self) -> u32
        ensures { (result ≡ word_of (spread (ack_bits self.word self.previous))) × (result < 65536) }
    {
        if self.word == 0 {
            return 0;
        }
        let all = self.acks_all();
        // bits 0 to 5, HH first: the program bits that rise, beside the operator bits. By number: their names say where they stand in the word
        let own = only_in(self.word, self.previous) / PROG_ACK_HH | self.word / OPER_ACK_HH;
        spread_of([
            all | is_set(own, 1),
            all | is_set(own, 2),
            all | is_set(own, 4),
            all | is_set(own, 8),
            all | is_set(own, 16),
            all | is_set(own, 32),
        ])
    }
}
