//! Names used in tables: rounding modes, and statuses as bits.

use rustc_apfloat::Round;

/// To the nearest value, ties to even.
pub const EVEN: Round = Round::NearestTiesToEven;

/// To the nearest value, ties to the greater magnitude.
pub const AWAY: Round = Round::NearestTiesToAway;

/// Upward.
pub const UP: Round = Round::TowardPositive;

/// Downward.
pub const DOWN: Round = Round::TowardNegative;

/// Toward zero.
pub const ZERO: Round = Round::TowardZero;

/// All modes.
pub static MODES: [Round; 5] = [EVEN, UP, DOWN, ZERO, AWAY];

/// The bits of a status without flags.
pub const OK: u8 = 0x00;

/// The bits of an inexact result.
pub const INEXACT: u8 = 0x10;

/// The bits of an invalid operation.
pub const INVALID_OP: u8 = 0x01;

/// The bits of a division by zero.
pub const DIV_BY_ZERO: u8 = 0x02;

/// The bits of an overflow, which is inexact.
pub const OVERFLOW_INEXACT: u8 = 0x14;

/// The bits of an underflow, which is inexact.
pub const UNDERFLOW_INEXACT: u8 = 0x18;
