//! The comparison predicates, and the relations that satisfy each.

ghost use Rattle.std.specs.Prelude.{◌≡◌};
ghost use Rattle.ieee_operations.specs.{Predicates.relations_of, Relations.has};

use std::cmp::Ordering;

/// A set of relations between two values. Of any two values exactly one of the four holds (IEEE 754-2019 5.11).
#[derive(Clone, Copy, PartialEq, Eq, Debug)]
pub struct Relations {
    /// The left value is less than the right one.
    pub less: bool,
    /// The values are equal, as -0 and +0 are.
    pub equal: bool,
    /// The left value is greater than the right one.
    pub greater: bool,
    /// A value is a NaN.
    pub unordered: bool,
}

impl Relations {
    /// Whether the set has a relation, given as `partial_cmp` returns it; `None` is unordered.
    #[inline]
    pub fn has(self, relation: Option<Ordering>) -> bool
        ensures { result ≡ has self relation }
    {
        match relation {
            Some(Ordering::Less) => self.less,
            Some(Ordering::Equal) => self.equal,
            Some(Ordering::Greater) => self.greater,
            None => self.unordered,
        }
    }
}

/// A comparison predicate (IEEE 754-2019, tables 5.1 to 5.3). Its name in the standard begins with `compareQuiet` or
/// `compareSignaling`, as `OnNan` says.
#[derive(Clone, Copy, PartialEq, Eq, Debug)]
pub enum Predicate {
    /// Equal.
    Equal,
    /// Less, greater or unordered.
    NotEqual,
    /// Greater.
    Greater,
    /// Greater or equal.
    GreaterEqual,
    /// Less.
    Less,
    /// Less or equal.
    LessEqual,
    /// Less, equal or unordered.
    NotGreater,
    /// Less or unordered: not greater or equal.
    LessUnordered,
    /// Equal, greater or unordered.
    NotLess,
    /// Greater or unordered: not less or equal.
    GreaterUnordered,
    /// Unordered. The standard has it as a quiet predicate only.
    Unordered,
    /// Less, equal or greater. The standard has it as a quiet predicate only.
    Ordered,
}

impl Predicate {
    /// The relations that satisfy the predicate.
    #[inline]
    pub fn relations(self) -> Relations
        ensures { result ≡ relations_of self }
    {
        match self {
            Predicate::Equal => these(false, true, false, false),
            Predicate::NotEqual => these(true, false, true, true),
            Predicate::Greater => these(false, false, true, false),
            Predicate::GreaterEqual => these(false, true, true, false),
            Predicate::Less => these(true, false, false, false),
            Predicate::LessEqual => these(true, true, false, false),
            Predicate::NotGreater => these(true, true, false, true),
            Predicate::LessUnordered => these(true, false, false, true),
            Predicate::NotLess => these(false, true, true, true),
            Predicate::GreaterUnordered => these(false, false, true, true),
            Predicate::Unordered => these(false, false, false, true),
            Predicate::Ordered => these(true, true, true, false),
        }
    }
}

#[inline]
fn these(less: bool, equal: bool, greater: bool, unordered: bool) -> Relations
    ensures less { result.less ≡ less }
    ensures equal { result.equal ≡ equal }
    ensures greater { result.greater ≡ greater }
    ensures unordered { result.unordered ≡ unordered }
{
    Relations {
        less,
        equal,
        greater,
        unordered,
    }
}

/// When a comparison raises INVALID_OP (IEEE 754-2019 5.11, 7.2).
#[derive(Clone, Copy, PartialEq, Eq, Debug)]
pub enum OnNan {
    /// Exactly if an operand is a signaling NaN.
    Quiet,
    /// Exactly if an operand is a NaN.
    Signaling,
}
