// The bits of an alarm's command word, by what a one counts there.

// ProgAck, or ProgAckAll.
pub const PROG_ACK: u32 = 0x1;

pub const PROG_RESET: u32 = 0x2;

pub const PROG_DISABLE: u32 = 0x4;

pub const PROG_ENABLE: u32 = 0x8;

pub const PROG_SUPPRESS: u32 = 0x10;

pub const PROG_UNSUPPRESS: u32 = 0x20;

pub const RESET_COUNTS: u32 = 0x40;

// OperAck, or OperAckAll.
pub const OPER_ACK: u32 = 0x80;

pub const OPER_RESET: u32 = 0x100;

pub const OPER_DISABLE: u32 = 0x200;

pub const OPER_ENABLE: u32 = 0x400;

pub const OPER_SUPPRESS: u32 = 0x800;

pub const OPER_UNSUPPRESS: u32 = 0x1000;

// Of HH, the first of six bits in a row, one a condition.
pub const PROG_ACK_HH: u32 = 0x2000;

pub const OPER_ACK_HH: u32 = 0x80000;

pub const IN_FAULT: u32 = 0x2000000;
