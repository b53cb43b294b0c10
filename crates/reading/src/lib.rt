// Readings, and the CIE 1960 u and v that each comes to, in micro (document 01, "Readings").
#![tactic(auto)]

ghost use Rattle.std.specs.Prelude.{◌≡◌, ◌*◌, ◌^◌, ◌<◌, ◌≤◌, true, IfOk};
ghost use Rattle.std.specs.List.{list_all, AllPass};
ghost use Rattle.std.specs.Float.{float_is_finite};
ghost use Rattle.arith.specs.Units.{micro};
ghost use Rattle.reading.specs.Whole.{in_range, to_whole};
ghost use Rattle.reading.specs.Code.Judge.{judge};
ghost use Rattle.reading.specs.Code.Product.{IsProduct};
ghost use Rattle.reading.specs.Convert.{point_over, of_uv, of_uv_prime, of_xy, of_xyz, of_coordinates, of_tristimulus, convert_reading, convert_micro};

use refusal::Refusal;

// A reading of one of the four kinds.
#[derive(Clone, Copy)]
pub enum Reading {
    // CIE 1960 u, v
    Uv(f32, f32),
    // CIE 1976 u', v'
    UvPrime(f32, f32),
    // CIE 1931 x, y
    Xy(f32, f32),
    // tristimulus values X, Y, Z
    Xyz(f32, f32, f32),
}

// A point of the CIE 1960 diagram. One unit of u and v is document 01's "micro", 0.000001.
#[derive(Clone, Copy, PartialEq, Eq, Debug)]
pub struct Chromaticity {
    pub u: u32,
    pub v: u32,
}

// u and v as whole numbers, in micro.
#[derive(Clone, Copy, PartialEq, Eq, Debug)]
pub struct Micro {
    pub u: u32,
    pub v: u32,
}

// What a reading comes to: u and v in micro, or why there is none.
pub type Converted = Result<Chromaticity, Refusal>;

// What comes to a point of the diagram or to a refusal; an answer goes by that alone.
pub trait Source {
    ghost use Rattle.reading.specs.Convert.{Converted};

    ghost comes_to: { Self → Converted };

    fn convert(self) -> Converted
        ensures { result ≡ comes_to self };
}

// What is converted already.
impl Source for Converted {
    ghost comes_to = { λ c. c };

    fn convert(self) -> Converted {
        self
    }
}

// What a float measures: how many of its units make 1, and the bound that it stays below.
#[derive(Clone, Copy)]
struct Quantity {
    scale: u32,
    bound: u16,
}

// Document 01's "micro", a coordinate's unit: so many make 1.
pub const MICRO: u32 = 1000000;

// u, v, u', v', x or y.
const COORDINATE: Quantity = Quantity {
    scale: MICRO,
    bound: 1,
};

// X, Y or Z.
const TRISTIMULUS: Quantity = Quantity {
    scale: 100000,
    bound: 4096,
};

// The largest u and v that are taken as whole numbers.
const MICRO_LIMIT: u32 = 4000000;

// The least whole-number Y that is taken.
const LEAST_Y: u32 = 100000;

// x times n, exactly: x has at most 24 binary digits and n is at most 2^29, so that the product has no more than an f64's 53.
fn exact_product(x: f32, n: u32) -> f64
    requires x_value { float_is_finite x ≡ true }
    requires n_bound { n ≤ 2 ^ 29 }
    ensures { IsProduct x n result }
{
    x as f64 * n as f64
}

// Whether x is neither infinite nor a NaN, of which no comparison holds. The library's test subtracts, which for an infinite x raises the
// flag of an invalid operation, and ends a program that has asked for a signal then.
fn is_finite(x: f32) -> bool
    ensures { result ≡ float_is_finite x }
{
    let infinity = 1.0f32 / 0.0;
    (-infinity < x) & (x < infinity)
}

// Whether no float is infinite or a NaN.
fn all_finite(floats: &[f32]) -> bool
    ensures all { result ≡ list_all float_is_finite floats.now }
    ensures each { result ≡ true → AllPass float_is_finite floats.now }
{
    floats.iter().all(|x| is_finite(*x))
}

impl Quantity {
    // Whether x is above -1/2 of its unit, where it is below zero, and below its bound otherwise.
    fn is_in_range(self, x: f32) -> bool
        requires x_value { float_is_finite x ≡ true }
        requires scale_bound { self.scale ≤ 2 ^ 28 }
        requires bound_nonzero { 0 < self.bound }
        ensures { result ≡ in_range self x }
    {
        if x < 0.0 {
            -1.0 < exact_product(x, 2 * self.scale)
        } else {
            x < self.bound as f32
        }
    }

    // Whether every float is in range.
    fn all_in_range(self, floats: &[f32]) -> bool
        requires finite { AllPass float_is_finite floats.now }
        requires scale_bound { self.scale ≤ 2 ^ 28 }
        requires bound_nonzero { 0 < self.bound }
        ensures { result ≡ list_all (in_range self) floats.now }
    {
        floats.iter().all(|x| self.is_in_range(*x))
    }

    // Refusal 2 or 3, each judged over all floats of the reading.
    #[tactic(auto, using(crate::proofs::Range::all_finite_same))]
    fn judge(self, floats: &[f32]) -> Result<(), Refusal>
        requires scale_bound { self.scale ≤ 2 ^ 28 }
        requires bound_nonzero { 0 < self.bound }
        ensures { result ≡ judge self floats.now }
    {
        if !all_finite(floats) {
            return Err(Refusal::NotFinite);
        }
        if !self.all_in_range(floats) {
            return Err(Refusal::OutOfRange);
        }
        Ok(())
    }

    // floor(x * scale + 1/2), as half of one more than 2 * x * scale cut towards zero.
    fn to_whole(self, x: f32) -> u32
        requires scale_bound { self.scale ≤ 2 ^ 28 }
        requires whole_bound { self.bound * self.scale < 2 ^ 32 }
        requires x_value { in_range self x ≡ true }
        ensures whole { result ≡ to_whole self x }
        ensures most { result ≤ self.bound * self.scale }
    {
        let halves = std::num::truncating_f64_to_u64(exact_product(x, 2 * self.scale));
        ((halves + 1) / 2) as u32
    }
}

// u and v over the divisor n of x, y or of X, Y, Z. The bounds on x and y keep both within 32 bits.
fn point_over(x: u32, y: u32, n: u64) -> Converted
    requires x_le_n { x ≤ n }
    requires y_bound { 3 * y ≤ 2 * n }
    ensures { result ≡ point_over x y n }
{
    let u = arith::nearest_quotient(4 * x as u64 * MICRO as u64, n);
    let v = arith::nearest_quotient(6 * y as u64 * MICRO as u64, n);
    Ok(Chromaticity {
        u: u as u32,
        v: v as u32,
    })
}

// u and v from u' and v'.
fn of_uv_prime(u: u32, v: u32) -> Converted
    ensures { result ≡ of_uv_prime u v }
{
    Ok(Chromaticity {
        u,
        v: arith::nearest_quotient(2 * v as u64, 3) as u32,
    })
}

// u and v from x and y.
fn of_xy(x: u32, y: u32) -> Converted
    requires { x ≤ micro }
    ensures { result ≡ of_xy x y }
{
    point_over(x, y, 3 * MICRO as u64 + 12 * y as u64 - 2 * x as u64)
}

// u and v from X, Y and Z.
pub fn of_xyz(x: u32, y: u32, z: u32) -> Converted
    ensures { result ≡ of_xyz x y z }
{
    point_over(x, y, x as u64 + 15 * y as u64 + 3 * z as u64)
}

// Two coordinates of any of the three kinds as whole numbers, or the reading's refusal.
#[tactic(auto, unfolding(crate::specs::Convert::of_coordinates))]
fn of_coordinates(x: f32, y: f32) -> Converted
    ensures point { result ≡ of_coordinates of_uv x y }
    ensures within { IfOk result (λ p. (p.u ≤ micro) × (p.v ≤ micro)) }
{
    COORDINATE.judge(&[x, y])?;
    Ok(Chromaticity {
        u: COORDINATE.to_whole(x),
        v: COORDINATE.to_whole(y),
    })
}

// u and v from three tristimulus values, or the reading's refusal.
#[tactic(auto, unfolding(crate::specs::Convert::of_tristimulus))]
fn of_tristimulus(x: f32, y: f32, z: f32) -> Converted
    ensures { result ≡ of_tristimulus x y z }
{
    TRISTIMULUS.judge(&[x, y, z])?;
    let whole_y = TRISTIMULUS.to_whole(y);
    if whole_y < LEAST_Y {
        return Err(Refusal::TooDark);
    }
    of_xyz(TRISTIMULUS.to_whole(x), whole_y, TRISTIMULUS.to_whole(z))
}

impl Source for Reading {
    ghost comes_to = { convert_reading };

    #[tactic(auto, using(crate::proofs::Rules::ruled), unfolding(crate::specs::Convert::convert_reading))]
    fn convert(self) -> Converted {
        match self {
            Reading::Uv(u, v) => of_coordinates(u, v),
            Reading::UvPrime(u, v) => {
                let p = of_coordinates(u, v)?;
                of_uv_prime(p.u, p.v)
            }
            Reading::Xy(x, y) => {
                let p = of_coordinates(x, y)?;
                of_xy(p.u, p.v)
            }
            Reading::Xyz(x, y, z) => of_tristimulus(x, y, z),
        }
    }
}

// The point itself, unless u or v is over the limit.
impl Source for Micro {
    ghost comes_to = { λ m. convert_micro m.u m.v };

    fn convert(self) -> Converted {
        if (self.u <= MICRO_LIMIT) & (self.v <= MICRO_LIMIT) {
            Ok(Chromaticity {
                u: self.u,
                v: self.v,
            })
        } else {
            Err(Refusal::OutOfRange)
        }
    }
}
