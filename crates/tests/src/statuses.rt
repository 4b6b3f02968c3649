//! Statuses, and values with a status.

use crate::asserts::same;
use apfloat_model::{Flags, Status, unpack};
use std::cmp::Ordering;

/// The status of an overflow.
fn overflowed() -> Status {
    Status::OVERFLOW.union(Status::INEXACT)
}

#[test]
fn makes_sets_of_bits(rt: HostRuntime) {
    let got = [
        Status::empty().bits(),
        Status::all().bits(),
        Status::from_bits_truncate(0x34).bits(),
        Status::from_bits_retain(0x34).bits(),
    ];
    same(&rt, got, [0x00, 0x1f, 0x14, 0x34], "sets");
    let got = [Status::from_bits(0x14), Status::from_bits(0x34)];
    same(&rt, got, [Some(overflowed()), None], "from_bits");
}

#[test]
fn asks_sets(rt: HostRuntime) {
    let overflowed = overflowed();
    let underflowed = Status::UNDERFLOW.union(Status::INEXACT);
    let got = [
        (Status::OK.is_empty(), overflowed.is_empty()),
        (Status::all().is_all(), overflowed.is_all()),
        (
            overflowed.contains(Status::INEXACT),
            overflowed.contains(underflowed),
        ),
        (
            overflowed.intersects(underflowed),
            overflowed.intersects(Status::UNDERFLOW),
        ),
    ];
    same(&rt, got, [(true, false); 4], "questions");
}

#[test]
fn combines_sets(rt: HostRuntime) {
    let overflowed = overflowed();
    let underflowed = Status::UNDERFLOW.union(Status::INEXACT);
    let got = [
        overflowed.bits(),
        overflowed.intersection(underflowed).bits(),
        overflowed.difference(underflowed).bits(),
        overflowed.symmetric_difference(underflowed).bits(),
        overflowed.complement().bits(),
    ];
    same(&rt, got, [0x14, 0x10, 0x04, 0x0c, 0x0b], "sets");
}

#[test]
fn changes_sets(rt: HostRuntime) {
    let mut status = overflowed();
    status.insert(Status::UNDERFLOW);
    let inserted = status.bits();
    status.remove(Status::INEXACT);
    let removed = status.bits();
    status.toggle(overflowed());
    let toggled = status.bits();
    status.set(Status::INVALID_OP, true);
    let set = status.bits();
    status.set(Status::UNDERFLOW, false);
    let got = [inserted, removed, toggled, set, status.bits()];
    same(&rt, got, [0x1c, 0x0c, 0x18, 0x19, 0x11], "changes");
}

/// The bits of two statuses combined by each operator, and those of the complement of the first.
fn combined(x: Status, y: Status) -> [u8; 5] {
    [
        (x | y).bits(),
        (x & y).bits(),
        (x ^ y).bits(),
        (x - y).bits(),
        (!x).bits(),
    ]
}

/// In the second case the statuses share a flag and each has one of its own, so no two operators give the same result.
#[test]
fn combines_by_operators(rt: HostRuntime) {
    let underflowed = Status::UNDERFLOW | Status::INEXACT;
    let left = Status::INVALID_OP | Status::INEXACT;
    let right = Status::INEXACT | Status::OVERFLOW;
    let operands = [underflowed.bits(), left.bits(), right.bits()];
    let got = [combined(overflowed(), underflowed), combined(left, right)];
    let expected = [
        [0x1c, 0x10, 0x0c, 0x04, 0x0b],
        [0x15, 0x10, 0x05, 0x01, 0x0e],
    ];
    same(
        &rt,
        (operands, got),
        ([0x18, 0x11, 0x14], expected),
        "operators",
    );
}

/// The bits of a status after each of the assigning operators.
fn assigned(first: Status, [or, and, xor, sub]: [Status; 4]) -> [u8; 4] {
    let mut status = first;
    status |= or;
    let joined = status.bits();
    status &= and;
    let common = status.bits();
    status ^= xor;
    let in_one = status.bits();
    status -= sub;
    [joined, common, in_one, status.bits()]
}

#[test]
fn changes_by_operators(rt: HostRuntime) {
    let invalid = Status::INEXACT | Status::INVALID_OP;
    let others = [
        Status::UNDERFLOW,
        Status::UNDERFLOW | invalid,
        invalid,
        Status::UNDERFLOW | Status::DIV_BY_ZERO,
    ];
    let right = overflowed();
    let got = [
        assigned(right, others),
        assigned(invalid, [right, right, invalid, right]),
    ];
    let expected = [[0x1c, 0x18, 0x09, 0x01], [0x15, 0x14, 0x05, 0x01]];
    same(&rt, got, expected, "operators");
}

/// A larger value does not outweigh a smaller status.
#[test]
fn orders_by_status_first(rt: HostRuntime) {
    let exact = Status::OK.and(7u8);
    let inexact = Status::INEXACT.and(3u8);
    let got = [
        exact.cmp(&inexact),
        inexact.cmp(&exact),
        exact.cmp(&Status::OK.and(8)),
        exact.cmp(&Status::OK.and(7)),
    ];
    let expected = [
        Ordering::Less,
        Ordering::Greater,
        Ordering::Less,
        Ordering::Equal,
    ];
    same(&rt, got, expected, "cmp");
    let got = (
        exact.partial_cmp(&inexact),
        exact < inexact,
        inexact > exact,
    );
    same(&rt, got, (Some(Ordering::Less), true, true), "partial_cmp");
}

#[test]
fn orders_statuses_by_bits(rt: HostRuntime) {
    let got = [
        Status::INEXACT.cmp(&overflowed()),
        Status::INEXACT.cmp(&Status::UNDERFLOW),
    ];
    same(&rt, got, [Ordering::Less, Ordering::Greater], "cmp");
}

#[test]
fn keeps_statuses_with_values(rt: HostRuntime) {
    let answer = Status::INEXACT.and(7).map(|value: u8| value / 2);
    let got = (
        answer.status.bits(),
        answer.value,
        Status::OK.and(7).unwrap(),
    );
    same(&rt, got, (0x10, 3, 7), "map and unwrap");
}

#[test]
fn unpacks_answers(rt: HostRuntime) {
    let mut status;
    let first: u8 = unpack!(status =, Status::INEXACT.and(1));
    let of_first = status.bits();
    let second: u8 = unpack!(status |=, Status::OVERFLOW.and(2));
    let got = [first, of_first, second, status.bits()];
    same(&rt, got, [1, 0x10, 2, 0x14], "values and statuses");
}
