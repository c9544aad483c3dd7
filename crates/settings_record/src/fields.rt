// Where the fields of a record stand, from its offset on: a byte of flags, then words of four bytes.

// A digital record: Severity, MinDuration.
pub const SEVERITY: usize = 1;

pub const DIGITAL_DURATION: usize = 5;

pub const DIGITAL_SIZE: usize = 9;

// An analog record: a severity of each condition.
pub const SEVERITY_HH: usize = 1;

pub const SEVERITY_H: usize = 5;

pub const SEVERITY_L: usize = 9;

pub const SEVERITY_LL: usize = 13;

pub const SEVERITY_ROCPOS: usize = 17;

pub const SEVERITY_ROCNEG: usize = 21;

// Its REALs.
pub const LIMIT_HH: usize = 25;

pub const LIMIT_H: usize = 29;

pub const LIMIT_L: usize = 33;

pub const LIMIT_LL: usize = 37;

pub const DEADBAND: usize = 41;

pub const LIMIT_ROCPOS: usize = 45;

pub const LIMIT_ROCNEG: usize = 49;

// ROCPeriod, MinDuration.
pub const PERIOD: usize = 53;

pub const ANALOG_DURATION: usize = 57;

pub const ANALOG_SIZE: usize = 61;
