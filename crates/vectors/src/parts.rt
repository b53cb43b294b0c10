// The parts of an answer: the locus, the nearest entry, the search, the classes and the root.
ghost use Rattle.std.specs.Prelude.{◌≤◌};

use crate::checksum::Checksum;
use crate::fields::Numbers;
use crate::put;
use crate::put::Out;
use locus::Locus;
use reading::Chromaticity;
use std::fmt;
use std::fmt::Write;

// A place of the locus: the number itself, or the nearer end.
fn on_locus(place: u32) -> u32
    ensures { (5168 ≤ result) × (result ≤ 64600) }
{
    place.clamp(5168, 64600)
}

// The first two numbers as a point of the diagram.
fn point_of(numbers: &Numbers) -> Chromaticity {
    Chromaticity {
        u: numbers.at(0),
        v: numbers.at(1),
    }
}

// `u v` of the locus at a place.
pub(crate) fn point(place: u32, out: &mut Out) -> fmt::Result {
    let point = Locus::stored().point_at(on_locus(place));
    writeln!(out, "{} {}", point.u, point.v)
}

// `count checksum` of u and v of the locus at each place from one to another, both taken.
pub(crate) fn points(from: u32, to: u32, out: &mut Out) -> fmt::Result {
    let locus = Locus::stored();
    let first = on_locus(from);
    let end = on_locus(to) + 1;
    let mut sum = Checksum::new();
    for place in first..end {
        let point = locus.point_at(place);
        sum = sum.with(point.u).with(point.v);
    }
    writeln!(out, "{} {sum}", end.saturating_sub(first))
}

// `m distance` of the nearest entry, or the refusal's number alone.
pub(crate) fn entry(numbers: &Numbers, out: &mut Out) -> fmt::Result {
    match Locus::stored().admit(point_of(numbers)) {
        Ok(near) => writeln!(out, "{} {}", near.entry, near.distance),
        Err(refusal) => put::refused(refusal, out),
    }
}

// `low high best distance` of the search about the nearest entry, or the refusal's number alone.
pub(crate) fn search(numbers: &Numbers, out: &mut Out) -> fmt::Result {
    let locus = Locus::stored();
    let point = point_of(numbers);
    match locus.admit(point) {
        Ok(near) => {
            let span = locus.span_about(near.entry);
            let found = search::run(span, point, near, numbers.at(2));
            write!(out, "{} {} ", found.low, found.high)?;
            writeln!(out, "{} {}", found.best, found.distance)
        }
        Err(refusal) => put::refused(refusal, out),
    }
}

// The class of `low high best` under the edges after them.
pub(crate) fn class(numbers: &Numbers, out: &mut Out) -> fmt::Result {
    let class = classes::class_of(numbers.from(3), numbers.at(0), numbers.at(1), numbers.at(2));
    writeln!(out, "{class}")
}

// 1 where the edges are valid, otherwise 0.
pub(crate) fn edges(numbers: &Numbers, out: &mut Out) -> fmt::Result {
    let valid = u8::from(classes::edges_valid(numbers.from(0)));
    writeln!(out, "{valid}")
}

// The largest whole number whose square is at most n.
pub(crate) fn root(n: u64, out: &mut Out) -> fmt::Result {
    let root = arith::integer_root(n);
    writeln!(out, "{root}")
}
