// The record of a reading and its answer, as a file keeps it (document 02, No. 4 and No. 8).
#![tactic(auto)]

ghost use Rattle.std.specs.Prelude.{◌≡◌};
ghost use Rattle.kept.specs.Keeping.{keep};

use cct::Answer;
use records::Record;

// The record of a reading's u and v, in micro, and its answer. Nothing is kept of an answer that is refused, nor of one with a place that a
// record's two bytes do not hold.
#[tactic(auto, unfolding(crate::specs::Keeping::keep, crate::specs::Keeping::fits_record))]
pub fn record_of(u: u32, v: u32, answer: Answer) -> Option<Record>
    ensures { result ≡ keep u v answer }
{
    if answer.refusal != 0 {
        return None;
    }
    Some(Record {
        u,
        v,
        place: u16::try_from(answer.place).ok()?,
        low: u16::try_from(answer.low).ok()?,
        high: u16::try_from(answer.high).ok()?,
        duv: answer.duv,
        steps: answer.steps,
        class: answer.class,
    })
}
