// The alarm whose events are written.
ghost use Rattle.std.specs.Prelude.{◌<◌};

use layout::sizes::ALARM_WORDS;
use settings::types::Form;

// Its number and form, its settings, whether the scan left it suppressed, and the scan's time. That the number is a byte is said for
// proofs that read no number.
#[derive(Clone, Copy)]
pub struct Source<'a> {
    pub number: u8,
    pub form: Form,
    pub settings: &'a [u64; ALARM_WORDS],
    pub suppressed: bool,
    pub time: u64,
    pub ghost small: { number < 256 },
}
