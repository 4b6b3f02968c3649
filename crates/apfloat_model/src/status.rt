//! Statuses, which are sets of flags, and results with a status.

ghost use Rattle.std.specs.Prelude.{⊤, ◌≡◌, [], ◌∷◌, codes};
ghost use Rattle.apfloat_model.specs.rounding.{Rounding.ok_bits, Flags.bits_of};

use bitflags::{Flag, Flags, bitflag_items};

/// The flags that an operation raises (IEEE 754-2019 7), as a set. Its set operations are those of the trait `Flags`.
#[derive(Clone, Copy, PartialEq, Eq, PartialOrd, Ord, Debug)]
pub struct Status(u8);

bitflag_items! {
    impl Status: u8 {
        /// No flag.
        const OK = 0x00;
        /// Invalid operation (7.2).
        const INVALID_OP = 0x01;
        /// Division by zero (7.3).
        const DIV_BY_ZERO = 0x02;
        /// Overflow (7.4).
        const OVERFLOW = 0x04;
        /// Underflow (7.5).
        const UNDERFLOW = 0x08;
        /// Inexact (7.6).
        const INEXACT = 0x10;
    }
}

impl Flags for Status {
    type Bits = u8;

    ghost exact = { ⊤ };

    ghost table = { (codes "OK", 0x00) ∷ (codes "INVALID_OP", 0x01) ∷ (codes "DIV_BY_ZERO", 0x02)
        ∷ (codes "OVERFLOW", 0x04) ∷ (codes "UNDERFLOW", 0x08) ∷ (codes "INEXACT", 0x10) ∷ [] };

    ghost set_of = { bits_of };

    fn flags<'a>() -> &'a [Flag<Status>] {
        Status::FLAGS
    }

    #[inline]
    fn bits(&self) -> u8 {
        self.0
    }

    #[inline]
    fn from_bits_retain(bits: u8) -> Status {
        Status(bits)
    }
}

impl Status {
    /// This status with a value.
    #[inline]
    pub fn and<T>(self, value: T) -> StatusAnd<T>
        ensures status { result.status ≡ self }
        ensures value { result.value ≡ value }
    {
        StatusAnd {
            status: self,
            value,
        }
    }
}

/// A result with the status of the operation that returned it. The order compares the status first.
#[derive(Clone, Copy, PartialEq, Eq, PartialOrd, Ord, Debug)]
pub struct StatusAnd<T> {
    /// The flags that the operation raised.
    pub status: Status,
    /// The result of the operation.
    pub value: T,
}

impl<T> StatusAnd<T> {
    /// The same status with the value that `f` returns.
    #[inline]
    pub fn map<F: FnOnce(T) -> U, U>(self, f: F) -> StatusAnd<U>
        requires { F.pre f self.value }
        ensures status { result.status ≡ self.status }
        ensures value { F.post f self.value result.value }
    {
        StatusAnd {
            status: self.status,
            value: f(self.value),
        }
    }

    /// The value. The status must be `OK`.
    #[inline]
    pub fn unwrap(self) -> T
        requires { bits_of self.status ≡ ok_bits }
        ensures { result ≡ self.value }
    {
        self.value
    }
}

/// Sets a status variable to the status of an expression, or joins that status to it, and returns the expression's
/// value.
///
/// `unpack!(status =, e)` sets it, `unpack!(status |=, e)` joins.
#[macro_export]
macro_rules! unpack {
    ($status:ident =, $e:expr) => {{
        let answer = $e;
        $status = answer.status;
        answer.value
    }};
    ($status:ident |=, $e:expr) => {{
        let answer = $e;
        $status = $crate::Flags::union($status, answer.status);
        answer.value
    }};
}
