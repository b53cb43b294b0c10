// Targets that are written or read into: the pattern that they hold at first, and the checksum of what they hold
// afterwards.
use crate::buffer::Buffer;
use crate::checksum::{Checksum, Number};

// Puts the pattern 3, 10, 17 and so on into a target that holds nothing: so many numbers, or as many as it has room for where that is fewer.
pub(crate) fn put_pattern<T: Number, const N: usize>(target: &mut Buffer<T, N>, count: u32) {
    let mut bits: u32 = 3;
    for _ in 0..N.min(count as usize) {
        target.push(T::of_bits(bits));
        bits = bits.wrapping_add(7);
    }
}

// The checksum of a target.
pub(crate) fn checksum<T: Number, const N: usize>(target: &Buffer<T, N>) -> Checksum {
    target
        .items()
        .iter()
        .fold(Checksum::new(), |sum, number| sum.with(*number))
}
