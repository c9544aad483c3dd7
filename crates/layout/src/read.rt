// An alarm's settings, read from its 8 words: single numbers, for a step that needs no struct, and the whole.
ghost use Rattle.std.specs.Prelude.{◌≡◌};
ghost use Rattle.layout.specs.Internal.Words.{flags_in, duration_in, period_in, limits_in, severity_in, severities_in, kind_in, alarm_in};

use crate::half::{lower, lower_real, lowest, upper, upper_real};
use crate::sizes::ALARM_WORDS;
use settings::types::{Alarm, Form, Kind, Limits, Severities};

pub fn flags_in(words: &[u64; ALARM_WORDS]) -> u8
    ensures { result ≡ flags_in words.now 0 }
{
    lowest(words[0])
}

pub fn duration_in(words: &[u64; ALARM_WORDS]) -> u32
    ensures { result ≡ duration_in words.now 0 }
{
    upper(words[0])
}

pub fn period_in(words: &[u64; ALARM_WORDS]) -> u32
    ensures { result ≡ period_in words.now 0 }
{
    upper(words[4])
}

// The seven REALs, in pairs.
pub fn limits_in(words: &[u64; ALARM_WORDS]) -> Limits
    ensures { result ≡ limits_in words.now 0 }
{
    let highs = words[1];
    let lows = words[2];
    let bands = words[3];
    Limits {
        hh: lower_real(highs),
        h: upper_real(highs),
        l: lower_real(lows),
        ll: upper_real(lows),
        deadband: lower_real(bands),
        rocpos: upper_real(bands),
        rocneg: lower_real(words[4]),
    }
}

// The severity of a digital alarm.
pub fn severity_in(words: &[u64; ALARM_WORDS]) -> u32
    ensures { result ≡ severity_in words.now 0 }
{
    lower(words[5])
}

// The severities of an analog alarm.
pub fn severities_in(words: &[u64; ALARM_WORDS]) -> Severities
    ensures { result ≡ severities_in words.now 0 }
{
    let a = words[5];
    let b = words[6];
    let c = words[7];
    Severities {
        hh: lower(a),
        h: upper(a),
        l: lower(b),
        ll: upper(b),
        rocpos: lower(c),
        rocneg: upper(c),
    }
}

fn kind_in(words: &[u64; ALARM_WORDS], form: Form) -> Kind
    ensures { result ≡ kind_in form words.now 0 }
{
    match form {
        Form::Digital => Kind::Digital {
            severity: severity_in(words),
        },
        Form::Analog => Kind::Analog {
            limits: limits_in(words),
            severities: severities_in(words),
            period: period_in(words),
        },
    }
}

pub fn alarm_in(words: &[u64; ALARM_WORDS], form: Form) -> Alarm
    ensures { result ≡ alarm_in form words.now 0 }
{
    Alarm {
        flags: flags_in(words),
        duration: duration_in(words),
        kind: kind_in(words, form),
    }
}
