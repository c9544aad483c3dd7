// An alarm's record in a settings image.
ghost use Rattle.std.specs.Prelude.{◌≡◌, ◌+◌, ◌<◌, ◌≤◌, length, IfOk, IfErr};
ghost use Rattle.wire.specs.Number.{part};
ghost use Rattle.settings.specs.Refusals.{refusal};
ghost use Rattle.settings.specs.declared.refusals.Reason.TheVariants.{Incomplete};
ghost use Rattle.settings_record.specs.Record.{limits_at, severities_at, record_at};
ghost use Rattle.settings_record.specs.Internal.Whole.{whole_record, along};

use crate::fields::{
    ANALOG_DURATION, ANALOG_SIZE, DEADBAND, DIGITAL_DURATION, DIGITAL_SIZE, LIMIT_H, LIMIT_HH,
    LIMIT_L, LIMIT_LL, LIMIT_ROCNEG, LIMIT_ROCPOS, PERIOD, SEVERITY, SEVERITY_H, SEVERITY_HH,
    SEVERITY_L, SEVERITY_LL, SEVERITY_ROCNEG, SEVERITY_ROCPOS,
};
use settings::refusals::{Reason, Refusal};
use settings::rules::{LONGEST_DURATION, levels_apart, numbers_in_range};
use settings::types::{Alarm, Form, Kind, Limits, Severities};
use wire::number::LittleEndian;

// What a one counts behind the last flag of each form.
const DIGITAL_FLAGS: u8 = 8;

const ANALOG_FLAGS: u8 = 32;

// Fields by name, here and in `limits_at`, and no loop over offsets: which stands where is what a reader looks for. Two functions, since the
// fields are others, of another type.
fn severities_at(bytes: &[u8; ANALOG_SIZE]) -> Severities
    ensures { result ≡ severities_at bytes.now 0 }
{
    Severities {
        hh: u32::get(bytes, SEVERITY_HH),
        h: u32::get(bytes, SEVERITY_H),
        l: u32::get(bytes, SEVERITY_L),
        ll: u32::get(bytes, SEVERITY_LL),
        rocpos: u32::get(bytes, SEVERITY_ROCPOS),
        rocneg: u32::get(bytes, SEVERITY_ROCNEG),
    }
}

fn limits_at(bytes: &[u8; ANALOG_SIZE]) -> Limits
    ensures { result ≡ limits_at bytes.now 0 }
{
    Limits {
        hh: f32::get(bytes, LIMIT_HH),
        h: f32::get(bytes, LIMIT_H),
        l: f32::get(bytes, LIMIT_L),
        ll: f32::get(bytes, LIMIT_LL),
        deadband: f32::get(bytes, DEADBAND),
        rocpos: f32::get(bytes, LIMIT_ROCPOS),
        rocneg: f32::get(bytes, LIMIT_ROCNEG),
    }
}

// The checks of a digital record that is there whole. `past`, the offset past it, goes with the alarm here already: to take an alarm out of one
// `Result` and put it into another costs a copy. No function for both forms is plainer: they read, check and keep other fields.
fn digital_record(
    bytes: &[u8; DIGITAL_SIZE],
    at: usize,
    past: usize,
) -> Result<(Alarm, usize), Refusal>
    ensures { result ≡ along past (whole_record Form.Digital bytes.now at) }
{
    let flags = bytes[0];
    let severity = u32::get(bytes, SEVERITY);
    let duration = u32::get(bytes, DIGITAL_DURATION);
    if DIGITAL_FLAGS <= flags {
        return Err(Reason::UnknownFlag.at(at));
    }
    if LONGEST_DURATION < duration {
        return Err(Reason::OutOfRange.at(at));
    }
    let kind = Kind::Digital { severity };
    let alarm = Alarm {
        flags,
        duration,
        kind,
    };
    Ok((alarm, past))
}

// The checks of an analog record that is there whole.
fn analog_record(
    bytes: &[u8; ANALOG_SIZE],
    at: usize,
    past: usize,
) -> Result<(Alarm, usize), Refusal>
    ensures { result ≡ along past (whole_record Form.Analog bytes.now at) }
{
    let flags = bytes[0];
    let severities = severities_at(bytes);
    let limits = limits_at(bytes);
    let period = u32::get(bytes, PERIOD);
    let duration = u32::get(bytes, ANALOG_DURATION);
    if ANALOG_FLAGS <= flags {
        return Err(Reason::UnknownFlag.at(at));
    }
    if !numbers_in_range(limits, period, duration) {
        return Err(Reason::OutOfRange.at(at));
    }
    if !levels_apart(flags, limits) {
        return Err(Reason::WrongLimits.at(at));
    }
    let kind = Kind::Analog {
        limits,
        severities,
        period,
    };
    let alarm = Alarm {
        flags,
        duration,
        kind,
    };
    Ok((alarm, past))
}

// The bytes of a record, as many as the caller takes, or the refusal where they don't stand there whole. Image and offset are two parameters,
// here and below, as in the definitions: the offset is another one at each call.
fn bytes_at<const N: usize>(image: &[u8], at: usize) -> Result<&[u8; N], Refusal>
    ensures whole { IfOk result (λ bytes. (at + N ≤ length image.now) × (bytes.now ≡ part image.now at N)) }
    ensures short { IfErr result (λ e. (length image.now < at + N) × (e ≡ refusal Incomplete at)) }
{
    let Some(bytes) = image.get(at..).and_then(<[u8]>::first_chunk) else {
        return Err(Reason::Incomplete.at(at));
    };
    Ok(bytes)
}

// An alarm's settings and the offset past its record, or the refusal.
pub fn record_at(image: &[u8], at: usize, form: Form) -> Result<(Alarm, usize), Refusal>
    ensures { result ≡ record_at form image.now at }
{
    match form {
        Form::Digital => digital_record(bytes_at(image, at)?, at, at + DIGITAL_SIZE),
        Form::Analog => analog_record(bytes_at(image, at)?, at, at + ANALOG_SIZE),
    }
}
