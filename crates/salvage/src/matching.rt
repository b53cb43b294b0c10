// Whether a record is what the search answers.
ghost use Rattle.std.specs.Prelude.{◌≡◌};
ghost use Rattle.salvage.specs.Salvaging.{has_fields, matches};

use cct::Answer;
use reading::Micro;
use records::Record;

// Whether an answer is accepted, and a record's fields are its fields.
#[tactic(auto, unfolding(crate::specs::Salvaging::has_fields))]
fn has_fields(r: Record, answer: Answer) -> bool
    ensures { result ≡ has_fields r answer }
{
    (answer.refusal == 0)
        & (answer.place == r.place.into())
        & (answer.low == r.low.into())
        & (answer.high == r.high.into())
        & (answer.duv == r.duv)
        & (answer.steps == r.steps)
        & (answer.class == r.class)
}

// Whether a record is what the search answers to its u and v at its own step count.
#[tactic(auto, unfolding(crate::specs::Salvaging::matches))]
pub(crate) fn is_match(r: Record, edges: &[u32]) -> bool
    ensures { result ≡ matches edges.now r }
{
    let reading = Micro { u: r.u, v: r.v };
    has_fields(r, cct::whole_answer(reading, edges, r.steps.into()))
}
