//! The line of a result with all flags. No command gives it.

use crate::asserts::same;
use apfloat_model::{Flags, Status};
use commands::write_line;
use std::test::Fail;

#[test]
fn has_room_for_the_longest_line(rt: HostRuntime) -> Result<(), Fail> {
    let mut out = Vec::new(rt.alloc());
    write_line(u128::MAX, 32, Status::all(), &mut out)?;
    let line =
        b"ffffffffffffffffffffffffffffffff INVALID_OP|DIV_BY_ZERO|OVERFLOW|UNDERFLOW|INEXACT\n";
    same(&rt, out.as_slice(), line.as_slice(), "all flags");
    Ok(())
}
