// The class edges that the caller lends, and the class of a bracket with its best point (document 01's "shelf classes").
#![tactic(auto)]

ghost use Rattle.std.specs.Prelude.{◌≡◌, ◌&&◌, drop};
ghost use Rattle.std.specs.List.{zip};
ghost use Rattle.arith.specs.Every.{every};
ghost use Rattle.classes.specs.Edges.{rises, is_edge, edges_valid};
ghost use Rattle.classes.specs.Classes.{at_least, below, class_of};

// The temperature at a place is this over the place, in kelvin.
pub const KELVIN_PLACES: u64 = 103360000;

// Given where no class is named.
pub const NO_CLASS: u8 = 255;

// Whether each edge is below the next.
fn rise(edges: &[u32]) -> bool
    ensures { result ≡ every rises (zip edges.now (drop 1 edges.now)) }
{
    edges.iter().zip(edges.iter().skip(1)).all(|(a, b)| a < b)
}

// Whether each edge is from 1600 to 20001.
fn in_range(edges: &[u32]) -> bool
    ensures { result ≡ every is_edge edges.now }
{
    edges.iter().all(|edge| (1600..=20001).contains(edge))
}

// Whether the edges meet refusal 1's rule: 2 to 32, strictly rising, each from 1600 to 20001.
#[tactic(auto, using(std::proofs::lemmas::Grind::common_steps, crate::proofs::Ends::zip_next), unfolding(crate::specs::Edges::edges_valid))]
pub fn edges_valid(edges: &[u32]) -> bool
    ensures valid { result ≡ edges_valid edges.now }
    ensures unchanged { edges.exit.now ≡ edges.entry.now }
{
    (2..=32).contains(&edges.len()) && rise(edges) && in_range(edges)
}

// Whether the temperatures at the places from hottest to coolest are from one edge up to but not including the next.
fn is_within(from: u32, to: u32, hottest: u32, coolest: u32) -> bool
    ensures { result ≡ at_least from coolest && below to hottest }
{
    let lower = u64::from(from) * u64::from(coolest);
    let upper = u64::from(to) * u64::from(hottest);
    (lower <= KELVIN_PLACES) & (KELVIN_PLACES < upper)
}

// The class that holds the bracket's ends and its best point, otherwise 255. The classes with a number below 255 are looked at.
#[tactic(auto, using(crate::proofs::Ends::holds_ends, crate::specs::ClassLaws::last_next), unfolding(crate::specs::Classes::last_passing))]
pub fn class_of(edges: &[u32], low: u32, high: u32, best: u32) -> u8
    ensures class { result ≡ class_of edges.now low high best }
    ensures unchanged { edges.exit.now ≡ edges.entry.now }
{
    let hottest = low.min(high).min(best);
    let coolest = low.max(high).max(best);
    let count = edges.len().saturating_sub(1).min(usize::from(NO_CLASS));
    let mut named = NO_CLASS;
    for k in 0..count {
        if is_within(edges[k], edges[k + 1], hottest, coolest) {
            named = k as u8;
        }
    }
    named
}
