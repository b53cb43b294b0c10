// Golden-section search for the place of the locus nearest to a reading (document 01, "The search", rules 2 to 6).
#![tactic(auto)]

ghost use Rattle.std.specs.Prelude.{◌≡◌, ◌≤◌, cond, ltb};
ghost use Rattle.locus.specs.Stored.{last_place};
ghost use Rattle.locus.specs.Locus.{distance_at};
ghost use Rattle.locus.specs.Admission.{admission};
ghost use Rattle.locus.specs.Code.Pieces.{span_about};
ghost use Rattle.search.specs.Code.Found.{found};
ghost use Rattle.search.specs.Code.Progress.{Begins, Tracks, Lies, state_of, moved};

use locus::{Nearest, PIECE_LENGTH, Point, Span};
use reading::Chromaticity;

// F(16) and F(15) of Fibonacci's sequence (rule 3).
const FIBONACCI_16: u32 = 987;

const FIBONACCI_15: u32 = 610;

// The most steps of a search (rule 5).
const MOST_STEPS: u32 = 14;

// What a search has found: its bracket, its best point (document 01's "nearest point seen"), that point's squared distance, and the
// number of steps.
#[derive(Clone, Copy)]
pub struct Search {
    pub low: u32,
    pub high: u32,
    pub best: u32,
    pub distance: u64,
    pub steps: u32,
}

// A search under way. The bracket starts at `low`; its inner points are `long` from its two ends and `short` from each other.
// `left` and `right` are the distances at the inner points, `least` the distance at the best point.
#[derive(Clone, Copy)]
struct Progress {
    low: u32,
    long: u32,
    short: u32,
    left: u64,
    right: u64,
    best: u32,
    least: u64,
}

// The one or the other of two values.
fn choose<T: Copy>(first: bool, x: T, y: T) -> T
    ensures { result ≡ cond first x y }
{
    if first { x } else { y }
}

impl Progress {
    // The search before its first step: the best point is the entry, then the inner points are looked at (rules 2, 3 and 6).
    fn begin(span: Span, reading: Point, near: Nearest) -> Progress
        requires { Begins reading.u reading.v span near.entry near.distance }
        ensures { Tracks (distance_at reading.u reading.v) near.entry 0 result }
    {
        let pieces = (span.to - span.from) / PIECE_LENGTH;
        let long = FIBONACCI_16 * pieces;
        let short = FIBONACCI_15 * pieces;
        let inner_low = span.from + long;
        let inner_high = inner_low + short;
        let left = span.distance_at(reading, inner_low);
        let right = span.distance_at(reading, inner_high);
        let low_nearer = left < near.distance;
        let best = choose(low_nearer, inner_low, PIECE_LENGTH * (near.entry + 1));
        let least = choose(low_nearer, left, near.distance);
        let high_nearer = right < least;
        Progress {
            low: span.from,
            long,
            short,
            left,
            right,
            best: choose(high_nearer, inner_high, best),
            least: choose(high_nearer, right, least),
        }
    }

    // One step (rules 4 and 6). The new point of either way is evaluated, and then one is chosen.
    #[tactic(auto, unfolding(crate::specs::Code::Progress::moved))]
    fn step(self, span: Span, reading: Point) -> Progress
        requires { Lies span self }
        ensures { result ≡ moved (ltb self.left self.right) (distance_at reading.u reading.v) self }
    {
        let inner_low = self.low + self.long;
        let new_low = self.low + self.short;
        let new_high = inner_low + self.long;
        let at_new_low = span.distance_at(reading, new_low);
        let at_new_high = span.distance_at(reading, new_high);
        let go_left = self.left < self.right;
        let place = choose(go_left, new_low, new_high);
        let distance = choose(go_left, at_new_low, at_new_high);
        let nearer = distance < self.least;
        Progress {
            low: choose(go_left, self.low, inner_low),
            long: self.short,
            short: self.long - self.short,
            left: choose(go_left, at_new_low, self.right),
            right: choose(go_left, self.left, at_new_high),
            best: choose(nearer, place, self.best),
            least: choose(nearer, distance, self.least),
        }
    }

    // The last place of the bracket.
    fn high(self) -> u32
        requires { (state_of self).high ≤ last_place }
        ensures { result ≡ (state_of self).high }
    {
        self.low + 2 * self.long + self.short
    }
}

// The search for an admitted reading about its nearest entry (rules 2 to 6), in as many steps as are allowed and rule 5 takes.
pub fn run(span: Span, p: Chromaticity, near: Nearest, max_steps: u32) -> Search
    requires { (admission p.u p.v ≡ Ok near) × (span ≡ span_about near.entry) }
    ensures { result ≡ found (distance_at p.u p.v) near.entry max_steps }
{
    let steps = max_steps.min(MOST_STEPS);
    let reading = Point { u: p.u, v: p.v };
    let mut s = Progress::begin(span, reading, near);
    for j in 0..steps {
        s = s.step(span, reading);
    }
    Search {
        low: s.low,
        high: s.high(),
        best: s.best,
        distance: s.least,
        steps,
    }
}
