// An alarm's settings as its 8 words.
ghost use Rattle.std.specs.Prelude.{◌≡◌};
ghost use Rattle.settings.specs.declared.types.Form.{Form};
ghost use Rattle.layout.specs.Internal.Words.{digital_of, analog_of, digital_words, analog_words, alarm_words, alarm_in, form_of};

use crate::half::{pair, pattern, real_pair};
use crate::sizes::ALARM_WORDS;
use settings::types::{Alarm, Kind, Limits, Severities};

// A digital alarm has flags, MinDuration and one severity; its other words are 0.
fn digital_words(flags: u8, duration: u32, severity: u32) -> [u64; ALARM_WORDS]
    ensures words_are { result ≡ digital_words flags duration severity }
    ensures read_back { alarm_in Form.Digital result 0 ≡ digital_of flags duration severity }
{
    let first = pair(u32::from(flags), duration);
    [first, 0, 0, 0, 0, pair(severity, 0), 0, 0]
}

// Its parameters are the parts that the match on an alarm's kind has; a struct of them would be made for this call alone.
fn analog_words(
    flags: u8,
    duration: u32,
    g: Limits,
    s: Severities,
    period: u32,
) -> [u64; ALARM_WORDS]
    ensures words_are { result ≡ analog_words flags duration g s period }
    ensures read_back { alarm_in Form.Analog result 0 ≡ analog_of flags duration g s period }
{
    [
        pair(u32::from(flags), duration),
        real_pair(g.hh, g.h),
        real_pair(g.l, g.ll),
        real_pair(g.deadband, g.rocpos),
        pair(pattern(g.rocneg), period),
        pair(s.hh, s.h),
        pair(s.l, s.ll),
        pair(s.rocpos, s.rocneg),
    ]
}

// The 8 words of an alarm, which say the alarm again.
pub fn alarm_words(alarm: Alarm) -> [u64; ALARM_WORDS]
    ensures words_are { result ≡ alarm_words alarm }
    ensures read_back { alarm_in (form_of alarm.kind) result 0 ≡ alarm }
{
    match alarm.kind {
        Kind::Digital { severity } => digital_words(alarm.flags, alarm.duration, severity),
        Kind::Analog {
            limits,
            severities,
            period,
        } => analog_words(alarm.flags, alarm.duration, limits, severities, period),
    }
}
