// Correlated colour temperature, Duv and class of a colour reading, as whole numbers and as floats.
#![tactic(auto)]

ghost use Rattle.std.specs.Prelude.{◌≡◌, cond, ◌<◌, leb, pos, neg_ℤ};
ghost use Rattle.locus.specs.Admission.{admission};
ghost use Rattle.locus.specs.Code.Pieces.{span_about};
ghost use Rattle.cct.specs.Answers.{duv_at, refused, accepted, answer};
ghost use Rattle.cct.specs.Code.OnSpan.{OnSpan};
ghost use Rattle.cct.specs.Code.Settled.{settled};
ghost use Rattle.cct.specs.FloatAnswers.{float_answer};

use locus::{Locus, Nearest, Span};
use reading::{Chromaticity, Converted, Source};
use refusal::Refusal;
use search::Search;

// The whole-number answer. A refused one has its number and zeros in every other field.
#[repr(C)]
#[derive(Clone, Copy)]
pub struct Answer {
    // The nearest point of the locus that the search looked at, and the bracket (document 01's [o, p]), in places.
    pub place: u32,
    pub low: u32,
    pub high: u32,
    // Signed distance from the locus, in micro.
    pub duv: i32,
    // 0 where the answer is accepted, else the number of the refusal.
    pub refusal: u8,
    pub steps: u8,
    // The class from 0, or 255 for none.
    pub class: u8,
}

// The temperature in kelvin and Duv as a coordinate, with the whole-number answer.
#[repr(C)]
#[derive(Clone, Copy)]
pub struct FloatAnswer {
    pub kelvin: f64,
    pub duv: f64,
    pub whole: Answer,
}

impl From<Refusal> for Answer {
    ghost from_gives = { λ r a. a ≡ refused r };

    fn from(refusal: Refusal) -> Answer {
        Answer {
            place: 0,
            low: 0,
            high: 0,
            duv: 0,
            refusal: u8::from(refusal),
            steps: 0,
            class: 0,
        }
    }
}

// The temperature and Duv as floats, each by one division of two exact numbers.
impl From<Answer> for FloatAnswer {
    ghost from_gives = { λ a f. f ≡ float_answer a };

    #[tactic(auto, using(crate::proofs::Assembly::zero_float), unfolding(crate::specs::FloatAnswers::float_answer))]
    fn from(answer: Answer) -> FloatAnswer {
        if answer.refusal == 0 {
            FloatAnswer {
                kelvin: (classes::KELVIN_PLACES as f64) / f64::from(answer.place),
                duv: f64::from(answer.duv) / f64::from(reading::MICRO),
                whole: answer,
            }
        } else {
            FloatAnswer {
                kelvin: 0.0,
                duv: 0.0,
                whole: answer,
            }
        }
    }
}

// d with the sign of Duv: positive or zero where the locus's v is at most the reading's v, otherwise negative.
fn signed_by(locus_v: u32, v: u32, d: u32) -> i32
    requires { d < 2147483648 }
    ensures { result ≡ cond (leb locus_v v) (pos d) (neg_ℤ (pos d)) }
{
    let s = d as i32;
    if locus_v <= v { s } else { -s }
}

// Duv of a reading against the locus at the best point of its search.
#[tactic(auto, unfolding(crate::specs::Answers::duv_at))]
fn duv_on(span: Span, p: Chromaticity, found: Search) -> i32
    requires { OnSpan span p.u p.v found.best found.distance }
    ensures { result ≡ duv_at p.u p.v found.best }
{
    let point = span.point_at(found.best);
    let root = arith::integer_root(found.distance);
    signed_by(point.v, p.v, root)
}

// The answer to a reading whose nearest entry is known: the search, Duv and the class.
#[tactic(auto, unfolding(crate::specs::Answers::accepted, search::specs::Code::Found::found))]
fn accepted_answer(
    span: Span,
    p: Chromaticity,
    near: Nearest,
    edges: &[u32],
    max_steps: u32,
) -> Answer
    requires { (admission p.u p.v ≡ Ok near) × (span ≡ span_about near.entry) }
    ensures { result ≡ accepted edges.now max_steps p.u p.v near.entry }
{
    let found = search::run(span, p, near, max_steps);
    let duv = duv_on(span, p, found);
    let class = classes::class_of(edges, found.low, found.high, found.best);
    Answer {
        place: found.best,
        low: found.low,
        high: found.high,
        duv,
        refusal: 0,
        steps: found.steps as u8,
        class,
    }
}

// The accepted answer to what a reading was converted to, or why there is none: refusal 1 comes first, and 5, 6 and 7 come last.
#[tactic(auto, unfolding(crate::specs::Answers::answer, crate::specs::Answers::checked, crate::specs::Answers::checked_point))]
fn try_answer(converted: Converted, edges: &[u32], max_steps: u32) -> Result<Answer, Refusal>
    ensures { settled refused result ≡ answer edges.now converted max_steps }
{
    if !classes::edges_valid(edges) {
        return Err(Refusal::BadEdges);
    }
    let p = converted?;
    let locus = Locus::stored();
    let near = locus.admit(p)?;
    let span = locus.span_about(near.entry);
    Ok(accepted_answer(span, p, near, edges, max_steps))
}

// The whole-number answer to what a reading was converted to. The generic functions are thin, so that the search is compiled once.
fn answer_to(converted: Converted, edges: &[u32], max_steps: u32) -> Answer
    ensures { result ≡ answer edges.now converted max_steps }
{
    try_answer(converted, edges, max_steps).unwrap_or_else(Answer::from)
}

// The whole-number answer to what a source comes to.
pub fn whole_answer<S: Source>(source: S, edges: &[u32], max_steps: u32) -> Answer
    ensures answers { result ≡ answer edges.now (S.comes_to source) max_steps }
    ensures unchanged { edges.exit.now ≡ edges.entry.now }
{
    answer_to(source.convert(), edges, max_steps)
}

// The answer to what a source comes to, with the temperature and Duv as floats.
pub fn float_answer<S: Source>(source: S, edges: &[u32], max_steps: u32) -> FloatAnswer
    ensures answers { result ≡ float_answer (answer edges.now (S.comes_to source) max_steps) }
    ensures unchanged { edges.exit.now ≡ edges.entry.now }
{
    FloatAnswer::from(whole_answer(source, edges, max_steps))
}
