// The conversions: a reading of one of the kinds, and what it comes to.
use crate::fields::Numbers;
use crate::put;
use crate::put::Out;
use reading::{Micro, Reading, Source};
use std::fmt;
use std::fmt::Write;

// The kinds of readings.
#[derive(Clone, Copy)]
pub(crate) enum Kind {
    // the four of floats, given by their bits in hexadecimal
    Uv,
    UvPrime,
    Xy,
    Xyz,
    // the lists that are held
    Samples,
    // u and v in micro
    Whole,
}

impl Kind {
    // The kind of a name; any other name than these is that of whole numbers.
    pub(crate) fn named(name: &[u8]) -> Kind {
        match name {
            b"uv" => Kind::Uv,
            b"uvp" => Kind::UvPrime,
            b"xy" => Kind::Xy,
            b"xyz" => Kind::Xyz,
            b"samples" => Kind::Samples,
            _ => Kind::Whole,
        }
    }

    // How many of a kind's numbers are floats.
    pub(crate) fn floats(self) -> usize {
        match self {
            Kind::Uv | Kind::UvPrime | Kind::Xy => 2,
            Kind::Xyz => 3,
            Kind::Samples | Kind::Whole => 0,
        }
    }

    // The reading of a kind of floats.
    pub(crate) fn reading(self, numbers: &Numbers) -> Option<Reading> {
        let a = float(numbers.at(0));
        let b = float(numbers.at(1));
        match self {
            Kind::Uv => Some(Reading::Uv(a, b)),
            Kind::UvPrime => Some(Reading::UvPrime(a, b)),
            Kind::Xy => Some(Reading::Xy(a, b)),
            Kind::Xyz => Some(Reading::Xyz(a, b, float(numbers.at(2)))),
            Kind::Samples | Kind::Whole => None,
        }
    }
}

// The float of a bit pattern; every NaN's pattern gives one NaN, since no NaN can be made from its bits.
fn float(bits: u32) -> f32 {
    if bits % 2147483648 > 2139095040 {
        return f32::NAN;
    }
    f32::from_bits(bits)
}

// The first two numbers as u and v in micro.
pub(crate) fn whole(numbers: &Numbers) -> Micro {
    Micro {
        u: numbers.at(0),
        v: numbers.at(1),
    }
}

// `0 u v` of what a source comes to, or the refusal's number alone.
pub(crate) fn convert<S: Source>(source: S, out: &mut Out) -> fmt::Result {
    match source.convert() {
        Ok(point) => writeln!(out, "0 {} {}", point.u, point.v),
        Err(refusal) => put::refused(refusal, out),
    }
}
