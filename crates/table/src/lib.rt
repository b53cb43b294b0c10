// The ready table, u and v of the locus at every 38th place, and the nearest of its points to a reading.
#![tactic(auto)]

mod points;

ghost use Rattle.std.specs.Prelude.{◌≡◌, ◌≤◌};
ghost use Rattle.locus.specs.Code.Bounds.{far_out};
ghost use Rattle.locus.specs.Admission.{limit};
ghost use Rattle.table.specs.Ready.{last_ready, ready_place, ready_table, nearest_ready};
ghost use Rattle.table.specs.Code.Scan.{Within, nearer_of};

use locus::Point;
use reading::Chromaticity;

// The first place of the locus, which is that of ready point 0.
const FIRST_PLACE: u32 = 2 * locus::PIECE_LENGTH;

// The places from one ready point to the next.
const SPACING: u32 = 38;

// How many ready points there are.
const READY_POINTS: usize = 1565;

// The ready table. An entry point of the software makes it once and lends it to all below it.
#[derive(Clone, Copy)]
pub struct ReadyTable {
    pub numbers: [u32; 3130],
    ghost ready: { numbers ≡ ready_table },
}

// The nearest of the ready points that were looked at and lie within a bound, with its squared distance; where there is none, the bound.
#[derive(Clone, Copy)]
struct Nearest {
    number: Option<usize>,
    distance: u64,
}

// The place of ready point k.
fn place_of(k: usize) -> u32
    requires { k ≤ last_ready }
    ensures { result ≡ ready_place k }
{
    FIRST_PLACE + SPACING * k as u32
}

impl ReadyTable {
    // The table that is stored.
    pub fn new() -> ReadyTable
        ensures { result.numbers ≡ ready_table }
    {
        ReadyTable {
            numbers: points::READY,
        }
    }

    // The nearer of the point kept so far and ready point k; of equals, that kept. Where u alone makes the point too far, v is not looked at.
    #[tactic(auto, using(crate::specs::ReadyLaws::ready_small, crate::specs::ReadyLaws::ready_squares, crate::specs::ScanLaws::kept_stays, crate::specs::ScanLaws::kept_gives_way, locus::specs::LocusLaws::square_small))]
    fn nearer(&self, reading: Point, kept: Nearest, k: usize) -> Nearest
        requires { k ≤ last_ready }
        ensures { result ≡ nearer_of reading.u reading.v kept k }
    {
        let across = locus::squared_difference(reading.u, self.numbers[2 * k]);
        if across >= kept.distance {
            return kept;
        }
        let distance = across + locus::squared_difference(reading.v, self.numbers[2 * k + 1]);
        if distance >= kept.distance {
            return kept;
        }
        Nearest {
            number: Some(k),
            distance,
        }
    }

    // The place of the ready point that is nearest to a reading, of equals the lowest, where some point is no farther than `near`.
    #[tactic(auto, using(crate::specs::ScanLaws::scan_next), unfolding(arith::specs::Least::least_of, crate::specs::Code::Scan::bounded))]
    pub fn nearest(&self, p: Chromaticity, near: u64) -> u32
        requires { (p.u ≤ far_out) × (p.v ≤ far_out) × (near ≤ limit) × Within p.u p.v near }
        ensures answers { result ≡ nearest_ready p.u p.v }
        ensures unchanged { self.exit.now ≡ self.entry.now }
    {
        let reading = Point { u: p.u, v: p.v };
        let mut kept = Nearest {
            number: None,
            distance: near + 1,
        };
        for k in 0..READY_POINTS {
            kept = self.nearer(reading, kept, k);
        }
        place_of(kept.number.unwrap())
    }
}
