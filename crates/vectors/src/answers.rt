// The whole answer of every entry point.
use crate::conversions::Kind;
use crate::fields::Numbers;
use crate::lists::Lists;
use crate::put::Out;
use crate::{conversions, put};
use reading::Source;
use std::fmt;
use std::fmt::Write;

// `refusal place low high duv steps class kelvin duv`, the last two by their bits: the whole numbers of one entry point with the
// floats of another, so that a line is right only where both are. The rest of the numbers are the most steps and the edges.
fn put_answer<S: Source + Copy>(source: S, rest: &[u32], out: &mut Out) -> fmt::Result {
    let (max_steps, edges) = match rest {
        [] => (0, rest),
        [max_steps, edges @ ..] => (*max_steps, edges),
    };
    let whole = cct::whole_answer(source, edges, max_steps);
    let floats = cct::float_answer(source, edges, max_steps);
    write!(
        out,
        "{} {} {} {} ",
        whole.refusal, whole.place, whole.low, whole.high
    )?;
    write!(out, "{} {} {} ", whole.duv, whole.steps, whole.class)?;
    let kelvin = put::bits(floats.kelvin);
    let duv = put::bits(floats.duv);
    writeln!(out, "{kelvin:016x} {duv:016x}")
}

// The answer to a reading of a kind.
pub(crate) fn answer(kind: Kind, numbers: &Numbers, lists: &Lists, out: &mut Out) -> fmt::Result {
    if let Some(reading) = kind.reading(numbers) {
        return put_answer(reading, numbers.from(kind.floats()), out);
    }
    match kind {
        Kind::Samples => put_answer(lists.samples(), numbers.from(0), out),
        _ => put_answer(conversions::whole(numbers), numbers.from(2), out),
    }
}
