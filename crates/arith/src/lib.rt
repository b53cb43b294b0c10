// Whole-number arithmetic: the rounded quotient and the square root.
#![tactic(auto)]

ghost use Rattle.std.specs.Prelude.{◌≡◌, ◌+◌, ◌*◌, ◌^◌, ◌≤◌, ◌<◌};
ghost use Rattle.arith.specs.Rounding.{nearest_quotient};
ghost use Rattle.arith.specs.Root.{root};

// a / b to the nearest whole number, halves up; 0 where b is 0. The remainder decides, so that nothing can overflow.
pub fn nearest_quotient(a: u64, b: u64) -> u64
    ensures { result ≡ nearest_quotient a b }
{
    if b == 0 {
        return 0;
    }
    let quotient = a / b;
    let remainder = a % b;
    if b - remainder <= remainder {
        quotient + 1
    } else {
        quotient
    }
}

// The root of n, one bit in each of `bits` rounds, the highest first. Before each round, with f the part of the root that is found
// and b = 2^k for the k rounds to go, rest is n - f·f, root is f·b and square is b·b/4. With the next bit, b/2, f·f grows by
// f·b + b·b/4, which is growth. In the end b is 1, and root is f.
fn root_by_bits(n: u64, bits: u32) -> u32
    requires { (1 ≤ bits) × (bits ≤ 32) × (n < 2 ^ (bits + bits)) }
    ensures { result ≡ root n }
{
    let mut square = 1u64 << (bits + bits - 2);
    let mut rest = n;
    let mut root: u64 = 0;
    for _ in 0..bits {
        let growth = root + square;
        let half = root >> 1;
        if growth <= rest {
            rest -= growth;
            // This is half + square, as root is even; docs/DECISIONS.md says why it is written so.
            root = growth - half;
        } else {
            root = half;
        }
        square >>= 2;
    }
    root as u32
}

// The largest whole number whose square is at most n, bit by bit: 16 bits where n is below 2^32, and 32 otherwise.
pub fn integer_root(n: u64) -> u32
    ensures { result ≡ root n }
{
    if n < 4294967296 {
        return root_by_bits(n, 16);
    }
    root_by_bits(n, 32)
}
