// What decides the conditions of an alarm in a scan.
ghost use Rattle.std.specs.Prelude.{◌<◌};

// The modes after the scan, what it meets and frees, two of the alarm's settings, and the scan's command word and time.
#[derive(Clone, Copy)]
pub struct Inputs {
    pub modes: u32,
    pub met: u32,
    pub frees: u32,
    pub duration: u32,
    pub required: bool,
    pub word: u32,
    pub time: u64,
    pub ghost few_bits: { modes < 4096 },
}
