//! Assertions. A call of these functions takes a fraction of the time to prove that an `assert_eq!` takes.

use std::fmt;
use std::fmt::{Debug, Formatter, Write};
use std::process::Abort;

/// Asserts that a result is the expected one. The message names the `case`.
pub fn same<T: PartialEq + Debug + Drop, C: Debug + Drop>(
    rt: &impl Abort,
    got: T,
    expected: T,
    case: C,
) {
    assert_eq!(rt; got, expected, "{case:?}");
}

/// A bit pattern as a case, shown in hexadecimal digits.
#[derive(Clone, Copy)]
pub struct Bits(pub u128);

impl Debug for Bits {
    fn fmt<W: Write>(&self, f: &mut Formatter<W>) -> fmt::Result {
        write!(f, "{:x}", self.0)
    }
}
