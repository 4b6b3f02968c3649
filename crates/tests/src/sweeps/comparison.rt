//! The library's roundings compared with the plain program's.

ghost use Rattle.std.specs.Prelude.{◌*◌, ◌^◌, ◌<◌, ◌≤◌};
ghost use Rattle.rustc_apfloat.specs.FlaggedTypes.{format_of};
ghost use Rattle.tests.specs.Subjects.{IsSubject};

use crate::asserts::same;
use crate::plain::{Bounds, deliver};
use crate::sweeps::small;
use crate::sweeps::small::{HALF_BOUNDS, Layout, bits_of};
use crate::sweeps::tables::MODES;
use commands::custom_formats::SevenS;
use rustc_apfloat::ieee::{Flagged, Half, HalfS, IeeeFlags, Loss, NonfiniteBehavior, TinyBefore};
use rustc_apfloat::{ExpInt, Float, Round, ieee};
use std::process::Abort;

/// A format with bits: its bounds, with its rule of flags, its layout, and the exponent of an eighth of its quantum.
#[derive(Clone, Copy)]
struct Subject {
    bounds: Bounds,
    layout: Layout,
    exponent: ExpInt,
}

const HALF: Subject = Subject {
    bounds: HALF_BOUNDS,
    layout: small::HALF,
    exponent: -27,
};

const HALF_TINY_BEFORE: Subject = Subject {
    bounds: Bounds {
        precision: 11,
        largest: 65504 << 24,
        smallest_normalized: 1 << 10,
        tiny_before_rounding: true,
        ieee_flags: false,
        nonfinite: NonfiniteBehavior::IEEE754,
    },
    layout: small::HALF,
    exponent: -27,
};

const HALF_IEEE: Subject = Subject {
    bounds: Bounds {
        precision: 11,
        largest: 65504 << 24,
        smallest_normalized: 1 << 10,
        tiny_before_rounding: false,
        ieee_flags: true,
        nonfinite: NonfiniteBehavior::IEEE754,
    },
    layout: small::HALF,
    exponent: -27,
};

const HALF_IEEE_TINY_BEFORE: Subject = Subject {
    bounds: Bounds {
        precision: 11,
        largest: 65504 << 24,
        smallest_normalized: 1 << 10,
        tiny_before_rounding: true,
        ieee_flags: true,
        nonfinite: NonfiniteBehavior::IEEE754,
    },
    layout: small::HALF,
    exponent: -27,
};

/// The largest value is 30, and a quantum is 2^-4.
const SEVEN_BOUNDS: Bounds = Bounds {
    precision: 4,
    largest: 30 << 4,
    smallest_normalized: 1 << 3,
    tiny_before_rounding: false,
    ieee_flags: false,
    nonfinite: NonfiniteBehavior::IEEE754,
};

const SEVEN: Subject = Subject {
    bounds: SEVEN_BOUNDS,
    layout: Layout {
        bounds: SEVEN_BOUNDS,
        one: 1 << 4,
        minus: 0x40,
        past: 0x38,
        quiet: 0x04,
    },
    exponent: -7,
};

/// Compares the results of the library and of the plain program for `eighths / 8` quanta, in each mode and with each
/// sign.
fn compare<S: Flagged>(rt: &impl Abort, subject: Subject, eighths: u128)
    requires written { S.PRECISION < S.BITS }
    requires subject { IsSubject (format_of S.Flagged) subject.bounds subject.exponent }
    requires eighths { eighths < 2 ^ 60 }
{
    compare_parts::<S>(rt, subject, eighths, 8);
}

/// The same for `amount / parts` quanta; the exponent of the subject is that of one part.
fn compare_parts<S: Flagged>(rt: &impl Abort, subject: Subject, amount: u128, parts: u128)
    requires written { S.PRECISION < S.BITS }
    requires subject { IsSubject (format_of S.Flagged) subject.bounds subject.exponent }
    requires amount { amount < 2 ^ 60 }
    requires some_parts { 0 < parts }
    requires few_parts { parts ≤ 16 }
{
    let layout = Layout {
        bounds: subject.bounds,
        ..subject.layout
    };
    for mode in MODES {
        for negative in [false, true] {
            let plain = deliver(subject.bounds, mode, negative, amount, parts);
            let answer = ieee::deliver::<S>(
                amount,
                subject.exponent,
                Loss::ExactlyZero,
                mode,
                negative,
            );
            same(
                rt,
                (answer.value.to_bits(), answer.status),
                (bits_of(layout, plain.value), plain.status),
                (amount, parts, mode, negative),
            );
        }
    }
}

/// Compares magnitudes of `Half` around `center` that are `step` apart, and those an eighth of a quantum above and
/// below each.
fn compare_about(rt: &impl Abort, center: u128, step: u128)
    requires far { center < 2 ^ 50 }
    requires some { 0 < step }
    requires near { 251 * step ≤ center }
{
    let first = center - 250 * step;
    for k in 0..501u64 {
        let eighths = first + u128::from(k) * step;
        for more in 0..3u64 {
            compare::<HalfS>(rt, HALF, eighths - 1 + u128::from(more));
        }
    }
}

#[test]
fn denormals_and_first_binades(rt: HostRuntime) {
    for eighths in 0..0x4000u64 {
        compare::<HalfS>(&rt, HALF, u128::from(eighths));
    }
}

/// Around each power of two, in eighths of the spacing above it.
#[test]
fn edges_of_binades(rt: HostRuntime) {
    for place in 0..31u32 {
        let step = 2u128.pow(place);
        compare_about(&rt, 0x2000 * step, step);
    }
}

/// The largest value is 65504; from 65520 on, rounding to nearest overflows.
#[test]
fn threshold_of_overflow(rt: HostRuntime) {
    for place in [0, 9, 19, 29] {
        let step = 2u128.pow(place);
        compare_about(&rt, 65504 << 27, step);
        compare_about(&rt, 65520 << 27, step);
    }
}

/// Compares denormal results and the first normal ones.
fn compare_denormals<S: Flagged>(rt: &impl Abort, subject: Subject)
    requires written { S.PRECISION < S.BITS }
    requires subject { IsSubject (format_of S.Flagged) subject.bounds subject.exponent }
{
    for eighths in 0..0x2800u64 {
        compare::<S>(rt, subject, u128::from(eighths));
    }
}

#[test]
fn denormals_by_other_rules_of_flags(rt: HostRuntime) {
    compare_denormals::<TinyBefore<HalfS>>(&rt, HALF_TINY_BEFORE);
    compare_denormals::<IeeeFlags<HalfS>>(&rt, HALF_IEEE);
    compare_denormals::<IeeeFlags<TinyBefore<HalfS>>>(&rt, HALF_IEEE_TINY_BEFORE);
}

/// Sixteenths of a quantum around the smallest normalized value, and the largest value in each mode.
#[test]
fn flags_of_the_standard_at_the_ends(rt: HostRuntime) {
    let sixteenths = Subject {
        exponent: -28,
        ..HALF_IEEE
    };
    for parts in 0x3f80..0x4080u64 {
        compare_parts::<IeeeFlags<HalfS>>(&rt, sixteenths, u128::from(parts), 16);
    }
    for number in 65400..66000u64 {
        compare::<IeeeFlags<HalfS>>(&rt, HALF_IEEE, u128::from(number) << 27);
    }
}

/// From zero to past the largest value.
#[test]
fn all_of_seven(rt: HostRuntime) {
    for eighths in 0..0x1400u64 {
        compare::<SevenS>(&rt, SEVEN, u128::from(eighths));
    }
}

/// From zero to past the largest value.
#[test]
fn whole_numbers(rt: HostRuntime) {
    for number in 0..=70000u64 {
        let number = u128::from(number);
        for mode in MODES {
            let plain = deliver(HALF.bounds, mode, false, number << 24, 1);
            let answer = Half::from_u128_r(number, mode);
            same(
                &rt,
                (answer.value.to_bits(), answer.status),
                (bits_of(HALF.layout, plain.value), plain.status),
                (number, mode),
            );
        }
    }
}
