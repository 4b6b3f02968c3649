//! The conformance predicates (IEEE 754-2019 5.7.1).
//!
//! Each is true if and only if the programming environment conforms to an edition of the standard. That includes what
//! is a language's and not a library's: expressions (10), modes and flags that it keeps (4.2, 7.1), literals. So each
//! is false of this library alone; an environment that is built over it answers for itself.

ghost use Rattle.std.specs.Prelude.{◌≡◌, false};

/// is754version1985 (5.7.1): false, since a library is not a programming environment.
pub fn is_754_version_1985() -> bool
    ensures { result ≡ false }
{
    false
}

/// is754version2008 (5.7.1): false, since a library is not a programming environment.
pub fn is_754_version_2008() -> bool
    ensures { result ≡ false }
{
    false
}

/// is754version2019 (5.7.1): false, since a library is not a programming environment.
pub fn is_754_version_2019() -> bool
    ensures { result ≡ false }
{
    false
}
