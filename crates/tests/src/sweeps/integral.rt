//! Every bit pattern of the small formats rounded to an integral value, in each mode. The expected value and status
//! come from dividing its quanta by the quanta of 1.

ghost use Rattle.std.specs.Prelude.{◌<◌};

use crate::asserts::{Bits, same};
use crate::sweeps::small::{Small, answered, integral, patterns_of};
use crate::sweeps::tables::MODES;
use rustc_apfloat::Float;
use rustc_apfloat::ieee::Semantics;
use std::process::Abort;

/// Every bit pattern of a format, in each mode.
pub fn check_all<S: Semantics>(rt: &impl Abort, format: Small)
    requires { S.PRECISION < S.BITS }
{
    for pattern in 0..patterns_of(format) {
        let bits = u128::from(pattern);
        let x = S::from_bits(bits);
        for mode in MODES {
            let answer = answered(x.round_to_integral(mode));
            same(rt, answer, integral(format, mode, bits), (Bits(bits), mode));
        }
    }
}
