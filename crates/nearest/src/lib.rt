// The coarse reader: the nearest ready place to a reading, for a panel that is to divide for no point of the locus.
#![tactic(auto)]

ghost use Rattle.std.specs.Prelude.{◌≡◌};
ghost use Rattle.nearest.specs.Coarse.{refused_coarse, coarse};
ghost use Rattle.cct.specs.Code.Settled.{settled};

use locus::Locus;
use reading::{Converted, Source};
use refusal::Refusal;
use table::ReadyTable;

// The coarse answer. A refused one has its number, and zero as its place.
#[repr(C)]
#[derive(Clone, Copy)]
pub struct Coarse {
    pub place: u32,
    // 0 where the answer is accepted, else the number of the refusal.
    pub refusal: u8,
}

impl From<Refusal> for Coarse {
    ghost from_gives = { λ r c. c ≡ refused_coarse r };

    fn from(refusal: Refusal) -> Coarse {
        Coarse {
            place: 0,
            refusal: u8::from(refusal),
        }
    }
}

// The nearest ready place to what a reading was converted to, or why there is none: refusals 5, 6 and 7 come last.
// In one function with the making of the table the scan takes nearly twice as long.
#[inline(never)]
#[tactic(auto, unfolding(crate::specs::Coarse::coarse, cct::specs::Answers::checked_point))]
fn try_coarse(table: &ReadyTable, converted: Converted) -> Result<Coarse, Refusal>
    ensures { settled refused_coarse result ≡ coarse converted }
{
    let p = converted?;
    let near = Locus::stored().admit(p)?;
    Ok(Coarse {
        place: table.nearest(p, near.distance),
        refusal: 0,
    })
}

// The coarse answer to what a source comes to, for a caller that keeps the ready table.
pub fn coarse_with<S: Source>(table: &ReadyTable, source: S) -> Coarse
    ensures answers { result ≡ coarse (S.comes_to source) }
    ensures unchanged { table.exit.now ≡ table.entry.now }
{
    try_coarse(table, source.convert()).unwrap_or_else(Coarse::from)
}

// The coarse answer to what a reading was converted to, with a table of its own. It is not generic, so that the table is compiled once.
fn coarse_alone(converted: Converted) -> Coarse
    ensures { result ≡ coarse converted }
{
    coarse_with(&ReadyTable::new(), converted)
}

// The coarse answer to what a source comes to, with a table of its own.
pub fn coarse_answer<S: Source>(source: S) -> Coarse
    ensures { result ≡ coarse (S.comes_to source) }
{
    coarse_alone(source.convert())
}
