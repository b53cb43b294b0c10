// The stored blackbody locus, the distance of a reading from it, and whether a reading is near enough to be answered.
#![tactic(auto)]

mod tables;

ghost use Rattle.std.specs.Prelude.{◌≡◌, ◌*◌, ◌≤◌, pos, nat_abs, ◌-ℤ◌};
ghost use Rattle.arith.specs.Units.{micro};
ghost use Rattle.locus.specs.Stored.{table_u, table_v, entry_in, stored_point, piece_length, first_place, last_place};
ghost use Rattle.locus.specs.Locus.{locus_point, difference, squared_distance, distance_at};
ghost use Rattle.locus.specs.Admission.{dot, behind, admission};
ghost use Rattle.locus.specs.Code.Bounds.{far_out};
ghost use Rattle.locus.specs.Code.Pieces.{third_difference, third_difference_of, curve_through, curve_about, third_difference_at, curve_at, span_about, AboutAnEntry};
ghost use Rattle.locus.specs.Code.Fits.{Small, CurveFits};
ghost use Rattle.locus.specs.Code.NearestSoFar.{near_at, nearer_of, nearest_of};

use reading::Chromaticity;
use refusal::Refusal;

// The places from one entry to the next. One place is document 01's "notch".
pub const PIECE_LENGTH: u32 = 2584;

// A coordinate of the locus is a fraction over this: 6 times the cube of a piece's length.
const DENOMINATOR: u64 = 6 * PIECE_LENGTH as u64 * PIECE_LENGTH as u64 * PIECE_LENGTH as u64;

// Half of the denominator.
const HALF: u64 = DENOMINATOR / 2;

// The square of a piece's length.
const PIECE_SQUARED: i64 = PIECE_LENGTH as i64 * PIECE_LENGTH as i64;

// Three times that square, and three times a piece's length.
const THREE_SQUARES: i64 = 3 * PIECE_SQUARED;

const THREE_PIECES: i64 = 3 * PIECE_LENGTH as i64;

// A point with a coordinate over this is too far from every entry.
const FAR_OUT: u32 = 4000000;

// A reading is too far from the locus where its squared distance to the nearest entry exceeds this (refusal 5).
const LIMIT: u64 = 2500000000;

// An entry, from 1 to 24, and its squared distance from a reading.
#[derive(Clone, Copy, PartialEq, Eq, Debug)]
pub struct Nearest {
    pub entry: u32,
    pub distance: u64,
}

// The stored locus: u and v of the 24 entries. They are two tables, since every curve goes through one coordinate of its entries.
// An entry point of the software makes it once and lends it to all below it.
#[derive(Clone, Copy)]
pub struct Locus {
    pub us: [u32; 24],
    pub vs: [u32; 24],
    ghost u_stored: { us ≡ table_u },
    ghost v_stored: { vs ≡ table_v },
}

// A point whose coordinates are small enough that sums and products of them fit 64 bits.
#[derive(Clone, Copy)]
pub struct Point {
    pub u: u32,
    pub v: u32,
    ghost u_small: { u ≤ far_out },
    ghost v_small: { v ≤ far_out },
}

// The coordinate of entry i, from 1 to 24, in a table of one coordinate.
#[tactic(auto, unfolding(crate::specs::Stored::entry_in))]
fn coordinate(table: &[u32; 24], i: usize) -> u32
    requires { (1 ≤ i) × (i ≤ 24) }
    ensures { result ≡ entry_in table.now i }
{
    table[i - 1]
}

// x - y with its sign.
fn signed_difference(x: u32, y: u32) -> i64
    ensures { result ≡ pos x -ℤ pos y }
{
    x as i64 - y as i64
}

// One coordinate of the locus on both sides of a middle entry. At t places past that entry it is
// (a + t * (b + t * c + (t * t - PIECE_SQUARED) * d)) / DENOMINATOR, where d is `left` before the entry and `right` from it on.
// The quadratic goes through the entry and its two neighbours, where the rest is 0; the half that rounds is in a.
#[derive(Clone, Copy)]
struct Curve {
    a: i64,
    b: i64,
    c: i64,
    left: i64,
    right: i64,
}

// The third difference of four neighbouring coordinates.
#[tactic(auto, unfolding(crate::specs::Code::Pieces::third_difference))]
fn third_difference(w: u32, x: u32, y: u32, z: u32) -> i64
    requires { (w ≤ micro) × (x ≤ micro) × (y ≤ micro) × (z ≤ micro) }
    ensures { result ≡ third_difference w x y z }
{
    signed_difference(z + 3 * x, 3 * y + w)
}

// The third difference of the four entries that piece i goes through.
#[tactic(auto, unfolding(crate::specs::Code::Pieces::third_difference_of))]
fn third_difference_of(table: &[u32; 24], i: u32) -> i64
    requires { Small table.now × (1 ≤ i) × (i ≤ 23) }
    ensures { result ≡ third_difference_of (entry_in table.now) i }
{
    let k = (i - 1).clamp(1, 21) as usize;
    let w = coordinate(table, k);
    let x = coordinate(table, k + 1);
    let y = coordinate(table, k + 2);
    let z = coordinate(table, k + 3);
    third_difference(w, x, y, z)
}

// The curve through x, y and z at a middle entry's neighbour before it, itself and its neighbour after it.
fn curve_through(x: u32, y: u32, z: u32, left: i64, right: i64) -> Curve
    requires { (x ≤ micro) × (y ≤ micro) × (z ≤ micro) }
    ensures { result ≡ curve_through x y z left right }
{
    let a = (DENOMINATOR * y as u64 + HALF) as i64;
    let b = THREE_SQUARES * signed_difference(z, x);
    let c = THREE_PIECES * signed_difference(z + x, 2 * y);
    Curve {
        a,
        b,
        c,
        left,
        right,
    }
}

// The curve about entry m, from 2 to 23.
#[tactic(auto, unfolding(crate::specs::Code::Pieces::curve_about))]
fn curve_about(table: &[u32; 24], m: u32) -> Curve
    requires { Small table.now × (2 ≤ m) × (m ≤ 23) }
    ensures { result ≡ curve_about (entry_in table.now) m }
{
    let i = m as usize;
    let x = coordinate(table, i - 1);
    let y = coordinate(table, i);
    let z = coordinate(table, i + 1);
    let left = third_difference_of(table, m - 1);
    let right = third_difference_of(table, m);
    curve_through(x, y, z, left, right)
}

impl Curve {
    // The third difference that the curve has t places past its middle entry.
    fn third_difference_at(self, t: i64) -> i64
        ensures { result ≡ third_difference_at self t }
    {
        if t < 0 { self.left } else { self.right }
    }

    // The coordinate that the curve gives t places past its middle entry.
    fn at(self, t: i64) -> u32
        requires { CurveFits self × (nat_abs t ≤ piece_length) }
        ensures { result ≡ curve_at self t }
    {
        let d = self.third_difference_at(t);
        let s = t * t - PIECE_SQUARED;
        let n = self.a + t * (self.b + t * self.c + s * d);
        (n as u64 / DENOMINATOR) as u32
    }
}

// The square of the difference of two numbers. The difference has its sign here: by `abs_diff` an admission takes a third longer.
pub fn squared_difference(x: u32, y: u32) -> u64
    requires { (x ≤ far_out) × (y ≤ far_out) }
    ensures { result ≡ difference x y * difference x y }
{
    let d = signed_difference(x, y);
    (d * d) as u64
}

impl Point {
    // The squared distance of two points.
    #[tactic(auto, using(crate::specs::LocusLaws::square_small), unfolding(crate::specs::Locus::squared_distance))]
    fn squared_distance(self, other: Point) -> u64
        ensures { result ≡ squared_distance self.u self.v other.u other.v }
    {
        squared_difference(self.u, other.u) + squared_difference(self.v, other.v)
    }

    // The dot product of two points, taken as vectors from (0, 0).
    fn dot(self, other: Point) -> u64
        ensures value { result ≡ dot self.u self.v other.u other.v }
        ensures fits { result ≤ 2 * (far_out * far_out) }
    {
        self.u as u64 * other.u as u64 + self.v as u64 * other.v as u64
    }
}

// The nearer of two entries; of equals, the first.
fn nearer(first: Nearest, second: Nearest) -> Nearest
    ensures { result ≡ nearer_of first second }
{
    if second.distance < first.distance {
        second
    } else {
        first
    }
}

impl Locus {
    // The locus that is stored.
    #[tactic(auto, unfolding(crate::specs::Stored::table_u, crate::specs::Stored::stored_u, crate::specs::Stored::table_v, crate::specs::Stored::stored_v))]
    pub fn stored() -> Locus
        ensures { (result.us ≡ table_u) × (result.vs ≡ table_v) }
    {
        Locus {
            us: tables::TABLE_U,
            vs: tables::TABLE_V,
        }
    }

    // Entry i, from 1 to 24.
    fn entry(&self, i: usize) -> Point
        requires { (1 ≤ i) × (i ≤ 24) }
        ensures { (result.u ≡ (stored_point i).u) × (result.v ≡ (stored_point i).v) }
    {
        Point {
            u: coordinate(&self.us, i),
            v: coordinate(&self.vs, i),
        }
    }

    // Entry i with its squared distance from a reading.
    #[tactic(auto, unfolding(crate::specs::Locus::entry_distance))]
    fn near_at(&self, reading: Point, i: usize) -> Nearest
        requires { (1 ≤ i) × (i ≤ 24) }
        ensures { result ≡ near_at reading.u reading.v i }
    {
        Nearest {
            entry: i as u32,
            distance: reading.squared_distance(self.entry(i)),
        }
    }

    // The nearest entry; of equals, the lowest. Both halves of the entries are walked at once, so that neither waits for the other.
    #[tactic(auto, using(crate::proofs::Admitting::nearest_one, crate::proofs::Admitting::nearest_next))]
    fn nearest_entry(&self, reading: Point) -> Nearest
        ensures { result ≡ nearest_of reading.u reading.v 23 }
    {
        let mut low = self.near_at(reading, 1);
        let mut high = self.near_at(reading, 13);
        for n in 0..11 {
            low = nearer(low, self.near_at(reading, n + 2));
            high = nearer(high, self.near_at(reading, n + 14));
        }
        nearer(low, high)
    }

    // Whether a reading lies behind entry e as seen towards entry f.
    fn is_behind(&self, reading: Point, e: usize, f: usize) -> bool
        requires { (1 ≤ e) × (e ≤ 24) × (1 ≤ f) × (f ≤ 24) }
        ensures { result ≡ behind reading.u reading.v e f }
    {
        let a = self.entry(e);
        let b = self.entry(f);
        reading.dot(b) + a.dot(a) < reading.dot(a) + a.dot(b)
    }

    // The admission of a reading that is not far out.
    #[tactic(auto, using(std::proofs::lemmas::Bool::Decides::nat_tests), unfolding(crate::specs::Admission::admission))]
    fn admit_near(&self, reading: Point) -> Result<Nearest, Refusal>
        ensures { result ≡ admission reading.u reading.v }
    {
        let near = self.nearest_entry(reading);
        if LIMIT < near.distance {
            return Err(Refusal::TooFar);
        }
        if near.entry == 1 && self.is_behind(reading, 1, 2) {
            return Err(Refusal::TooHot);
        }
        if near.entry == 24 && self.is_behind(reading, 24, 23) {
            return Err(Refusal::TooCool);
        }
        Ok(near)
    }

    // The nearest entry to a reading and its squared distance, or why the reading is refused (refusals 5, 6 and 7).
    #[tactic(auto, using(crate::specs::AdmissionLaws::far_out_lem))]
    pub fn admit(&self, p: Chromaticity) -> Result<Nearest, Refusal>
        ensures answers { result ≡ admission p.u p.v }
        ensures unchanged { self.exit.now ≡ self.entry.now }
    {
        if FAR_OUT < p.u || FAR_OUT < p.v {
            return Err(Refusal::TooFar);
        }
        self.admit_near(Point { u: p.u, v: p.v })
    }

    // The locus about entry m.
    #[tactic(auto, using(crate::specs::StoredLaws::steady_u, crate::specs::StoredLaws::steady_v), unfolding(crate::specs::Code::Pieces::span_about))]
    pub fn span_about(&self, m: u32) -> Span
        requires { (1 ≤ m) × (m ≤ 24) }
        ensures answers { result ≡ span_about m }
        ensures unchanged { self.exit.now ≡ self.entry.now }
    {
        let middle = m.clamp(2, 23);
        Span {
            from: PIECE_LENGTH * ((m - 1).max(1) + 1),
            mid: PIECE_LENGTH * (middle + 1),
            to: PIECE_LENGTH * ((m + 1).min(24) + 1),
            u: curve_about(&self.us, middle),
            v: curve_about(&self.vs, middle),
        }
    }

    // The point of the locus at a place: the span about the last entry that is not past the place holds it.
    pub fn point_at(&self, place: u32) -> Chromaticity
        requires { (first_place ≤ place) × (place ≤ last_place) }
        ensures answers { result ≡ locus_point place }
        ensures unchanged { self.exit.now ≡ self.entry.now }
    {
        let entry = place / PIECE_LENGTH - 1;
        let span = self.span_about(entry);
        span.point_at(place)
    }
}

// The locus from the place `from` to the place `to`: a curve for each coordinate, in the places past the middle entry, which is at `mid`.
#[derive(Clone, Copy)]
pub struct Span {
    pub from: u32,
    mid: u32,
    pub to: u32,
    u: Curve,
    v: Curve,
}

impl Span {
    // The point of the locus at a place of the span.
    #[tactic(auto, using(crate::specs::PieceLaws::span_follows))]
    pub fn point_at(self, place: u32) -> Chromaticity
        requires { AboutAnEntry self × (self.from ≤ place) × (place ≤ self.to) }
        ensures { result ≡ locus_point place }
    {
        let t = signed_difference(place, self.mid);
        let u = self.u.at(t);
        let v = self.v.at(t);
        Chromaticity { u, v }
    }

    // The squared distance of a reading from the locus at a place of the span.
    pub fn distance_at(self, reading: Point, place: u32) -> u64
        requires { AboutAnEntry self × (self.from ≤ place) × (place ≤ self.to) }
        ensures { result ≡ distance_at reading.u reading.v place }
    {
        let Chromaticity { u, v } = self.point_at(place);
        reading.squared_distance(Point { u, v })
    }
}
