// An alarm's settings. DINTs are kept as stored, as the unsigned number of the same 32 bits.
ghost use Rattle.std.specs.Prelude.{◌≡◌};
ghost use Rattle.settings.specs.Alarm.{blank, blanks, empty, factory, factory_alarm};

use crate::counts::{ALARMS, Counts, MOST};
use wire::places::{ACK_REQUIRED, CONDITION};

// The limits, Deadband and rate limits of an analog alarm, which travel together.
#[derive(Clone, Copy)]
pub struct Limits {
    pub hh: f32,
    pub h: f32,
    pub l: f32,
    pub ll: f32,
    pub deadband: f32,
    pub rocpos: f32,
    pub rocneg: f32,
}

// The severities of an analog alarm's conditions.
#[derive(Clone, Copy)]
pub struct Severities {
    pub hh: u32,
    pub h: u32,
    pub l: u32,
    pub ll: u32,
    pub rocpos: u32,
    pub rocneg: u32,
}

// What the two kinds of alarm have of their own.
#[derive(Clone, Copy)]
pub enum Kind {
    Digital {
        severity: u32,
    },
    Analog {
        limits: Limits,
        severities: Severities,
        period: u32,
    },
}

#[derive(Clone, Copy)]
pub struct Alarm {
    pub flags: u8,
    pub duration: u32,
    pub kind: Kind,
}

// The form of a record, by its section.
#[derive(Clone, Copy)]
pub enum Form {
    Digital,
    Analog,
}

// A decoded reading.
#[derive(Clone, Copy)]
pub enum Reading {
    Digital(bool),
    Level(f32),
}

// The settings of a bank: the digital alarms, then the analog ones, in number order from 1 at place 0. The rest of the
// array is blank.
#[derive(Clone, Copy)]
pub struct Settings {
    pub counts: Counts,
    pub alarms: [Alarm; ALARMS],
}

pub fn blank_alarm() -> Alarm
    ensures { result ≡ blank }
{
    let kind = Kind::Digital { severity: 0 };
    Alarm {
        flags: 0,
        duration: 0,
        kind,
    }
}

pub fn blank_alarms() -> [Alarm; ALARMS]
    ensures { result ≡ blanks }
{
    let alarm = blank_alarm();
    [alarm; ALARMS]
}

// The severity of the factory bank's alarms.
const FACTORY_SEVERITY: u32 = 500;

// An alarm of the factory bank. `as` narrows: flags are a byte.
fn factory_alarm() -> Alarm
    ensures { result ≡ factory_alarm }
{
    let kind = Kind::Digital {
        severity: FACTORY_SEVERITY,
    };
    Alarm {
        flags: (CONDITION + ACK_REQUIRED) as u8,
        duration: 0,
        kind,
    }
}

// The settings of a receiver that was given none: twelve digital alarms. It has a frame of its own, which other images do not use.
#[cold]
#[inline(never)]
pub fn factory() -> Settings
    ensures { result ≡ factory }
{
    let mut alarms = blank_alarms();
    alarms[..MOST].fill(factory_alarm());
    let counts = Counts {
        digital: MOST,
        analog: 0,
    };
    Settings { counts, alarms }
}

// Settings without alarms.
pub fn no_alarms() -> Settings
    ensures { result ≡ empty }
{
    let counts = Counts {
        digital: 0,
        analog: 0,
    };
    let alarms = blank_alarms();
    Settings { counts, alarms }
}
