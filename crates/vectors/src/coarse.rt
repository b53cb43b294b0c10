// The ready table and the coarse reader.
use crate::conversions;
use crate::conversions::Kind;
use crate::fields::Numbers;
use crate::put::Out;
use reading::{Micro, Source};
use std::fmt;
use std::fmt::Write;
use table::ReadyTable;

// The number of the last ready point.
const LAST_READY: u32 = 1564;

// `place u v` of ready point k, or of the last one, with the place that the coarse reader answers to the point itself.
pub(crate) fn ready(k: u32, out: &mut Out) -> fmt::Result {
    let table = ReadyTable::new();
    let number = k.min(LAST_READY) as usize;
    let u = table.numbers[2 * number];
    let v = table.numbers[2 * number + 1];
    let place = nearest::coarse_answer(Micro { u, v }).place;
    writeln!(out, "{place} {u} {v}")
}

// `refusal place` of a source, where the reader that makes the table and the one that is lent it answer the same; otherwise the place is 1,
// which no answer has.
fn put_coarse<S: Source + Copy>(source: S, out: &mut Out) -> fmt::Result {
    let made = nearest::coarse_answer(source);
    let lent = nearest::coarse_with(&ReadyTable::new(), source);
    let is_same = made.refusal == lent.refusal && made.place == lent.place;
    let place = if is_same { made.place } else { 1 };
    writeln!(out, "{} {place}", made.refusal)
}

// The coarse answer to a reading of a kind; one of the lists that are held counts as whole numbers.
pub(crate) fn coarse(kind: Kind, numbers: &Numbers, out: &mut Out) -> fmt::Result {
    match kind.reading(numbers) {
        Some(reading) => put_coarse(reading, out),
        None => put_coarse(conversions::whole(numbers), out),
    }
}
