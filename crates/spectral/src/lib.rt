// Spectral samples, and the CIE 1960 u and v that they come to, in micro (document 02, No. 1).
#![tactic(auto)]

ghost use Rattle.std.specs.Prelude.{◌≡◌, ◌≤◌, true, ◌&&◌, nat_le, fold};
ghost use Rattle.spectral.specs.Samples.{lengths_good, limits_good, sums, shift_of, divided, of_divided, convert_samples};
ghost use Rattle.spectral.specs.ShiftLaws.{Under};
ghost use Rattle.spectral.specs.Conditions.{Sound};

use reading::{Converted, Source};
use refusal::Refusal;

// X, Y and Z: the sums of products, or what is left of them after a division.
#[derive(Clone, Copy)]
struct Tristimulus {
    x: u64,
    y: u64,
    z: u64,
}

// Spectral samples, and the observer's tables of X, Y and Z, a number of each for each sample.
#[derive(Clone, Copy)]
pub struct Samples<'a> {
    pub samples: &'a [u32],
    pub x_bar: &'a [u32],
    pub y_bar: &'a [u32],
    pub z_bar: &'a [u32],
}

// The most samples that are taken.
const MOST_SAMPLES: usize = 471;

// The largest sample that is taken.
const SAMPLE_LIMIT: u32 = 16777215;

// The largest number of a table that is taken.
const TABLE_LIMIT: u32 = 4000000;

// Whether each number is at most the limit. A fold looks at all of them, by vector instructions, in half the time of `all`.
fn all_at_most(numbers: &[u32], limit: u32) -> bool
    ensures { result ≡ fold (λ good n. good && nat_le n limit) true numbers.now }
{
    numbers.iter().fold(true, |good, n| good & (*n <= limit))
}

impl<'a> Samples<'a> {
    // Whether there are 1 to 471 samples, and as many numbers in each table.
    #[tactic(auto, unfolding(crate::specs::Samples::lengths_good))]
    fn lengths_good(&self) -> bool
        ensures { result ≡ lengths_good self.now.samples.now self.now.x_bar.now self.now.y_bar.now self.now.z_bar.now }
    {
        let n = self.samples.len();
        (1 <= n)
            & (n <= MOST_SAMPLES)
            & (self.x_bar.len() == n)
            & (self.y_bar.len() == n)
            & (self.z_bar.len() == n)
    }

    // Whether each sample and each table's number is at most its limit.
    fn limits_good(&self) -> bool
        ensures { result ≡ limits_good self.now.samples.now self.now.x_bar.now self.now.y_bar.now self.now.z_bar.now }
    {
        all_at_most(self.samples, SAMPLE_LIMIT)
            & all_at_most(self.x_bar, TABLE_LIMIT)
            & all_at_most(self.y_bar, TABLE_LIMIT)
            & all_at_most(self.z_bar, TABLE_LIMIT)
    }

    // X, Y and Z: the sums of the products of the samples with each table, in one pass, which takes less time than a chain for each.
    fn sums(&self) -> Tristimulus
        requires { Sound self.now.samples.now self.now.x_bar.now self.now.y_bar.now self.now.z_bar.now }
        ensures { result ≡ sums self.now.samples.now self.now.x_bar.now self.now.y_bar.now self.now.z_bar.now }
    {
        let mut sums = Tristimulus { x: 0, y: 0, z: 0 };
        for (k, sample) in self.samples.iter().enumerate() {
            let sample = *sample as u64;
            sums.x += sample * self.x_bar[k] as u64;
            sums.y += sample * self.y_bar[k] as u64;
            sums.z += sample * self.z_bar[k] as u64;
        }
        sums
    }
}

// The least k for which n / 2^k is under 2^32: as many bits as n has beyond 32.
#[tactic(auto, using(crate::specs::ShiftLaws::shift_leading))]
fn shift_for(n: u64) -> u32
    ensures least { result ≡ shift_of n }
    ensures few { result ≤ 32 }
{
    32u32.saturating_sub(n.leading_zeros())
}

impl Tristimulus {
    // X, Y and Z divided by the least power of two that leaves the largest under 2^32.
    #[tactic(auto, using(crate::specs::ShiftLaws::shifted_under), unfolding(crate::specs::Samples::divided))]
    fn divide(self) -> Tristimulus
        ensures quotients { result ≡ divided self }
        ensures under { Under result }
    {
        let shift = shift_for(self.x.max(self.y).max(self.z));
        Tristimulus {
            x: self.x >> shift,
            y: self.y >> shift,
            z: self.z >> shift,
        }
    }

    // What the three sums come to: refusal 4 where the division leaves no Y, or the point.
    #[tactic(auto, unfolding(crate::specs::Samples::of_divided))]
    fn convert(self) -> Converted
        ensures { result ≡ of_divided (divided self) }
    {
        let values = self.divide();
        if values.y == 0 {
            return Err(Refusal::TooDark);
        }
        reading::of_xyz(values.x as u32, values.y as u32, values.z as u32)
    }
}

// What the samples come to with the observer's three tables.
impl<'a> Source for Samples<'a> {
    ghost comes_to = { λ s. convert_samples s.samples.now s.x_bar.now s.y_bar.now s.z_bar.now };

    #[tactic(auto, unfolding(crate::specs::Samples::convert_samples))]
    fn convert(self) -> Converted
        ensures converts { result ≡ convert_samples self.entry.samples.now self.entry.x_bar.now self.entry.y_bar.now self.entry.z_bar.now }
        ensures unchanged { (self.exit.samples.now ≡ self.entry.samples.now) × (self.exit.x_bar.now ≡ self.entry.x_bar.now) × (self.exit.y_bar.now ≡ self.entry.y_bar.now) × (self.exit.z_bar.now ≡ self.entry.z_bar.now) }
    {
        if !self.lengths_good() {
            return Err(Refusal::BadLengths);
        }
        if !self.limits_good() {
            return Err(Refusal::SampleTooLarge);
        }
        self.sums().convert()
    }
}
