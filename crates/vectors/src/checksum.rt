// The checksum of an answer, and the numbers that it takes.
ghost use Rattle.std.specs.Prelude.{◌<◌};

use crate::fields::low_32;
use std::fmt;

// A checksum of numbers, below the modulus.
#[derive(Clone, Copy)]
pub(crate) struct Checksum {
    value: u64,
    ghost below: { value < 4294967291 },
}

// A number, or what is made of numbers.
pub(crate) trait Summed: Copy {
    // A checksum with its numbers.
    fn added_to(self, sum: Checksum) -> Checksum;
}

// A number of a target or of a column.
pub(crate) trait Number: Summed {
    // The number that a column or a target holds where 32 bits are put into it.
    fn of_bits(bits: u32) -> Self;
}

impl Checksum {
    // Of no number.
    pub(crate) fn new() -> Checksum {
        Checksum { value: 0 }
    }

    // With one more number, or with those of a value.
    pub(crate) fn with<S: Summed>(self, value: S) -> Checksum {
        value.added_to(self)
    }
}

impl fmt::Display for Checksum {
    fn fmt<W: fmt::Write>(&self, f: &mut fmt::Formatter<W>) -> fmt::Result {
        let value = self.value;
        write!(f, "{value}")
    }
}

impl Summed for u32 {
    fn added_to(self, sum: Checksum) -> Checksum {
        Checksum {
            value: (sum.value * 1000003 + u64::from(self)) % 4294967291,
        }
    }
}

impl Number for u32 {
    fn of_bits(bits: u32) -> u32 {
        bits
    }
}

impl Summed for u8 {
    fn added_to(self, sum: Checksum) -> Checksum {
        sum.with(u32::from(self))
    }
}

impl Number for u8 {
    fn of_bits(bits: u32) -> u8 {
        (bits & 0xff) as u8
    }
}

impl Summed for u16 {
    fn added_to(self, sum: Checksum) -> Checksum {
        sum.with(u32::from(self))
    }
}

impl Number for u16 {
    fn of_bits(bits: u32) -> u16 {
        (bits & 0xffff) as u16
    }
}

impl Summed for i32 {
    fn added_to(self, sum: Checksum) -> Checksum {
        sum.with(self.cast_unsigned())
    }
}

impl Number for i32 {
    fn of_bits(bits: u32) -> i32 {
        bits.cast_signed()
    }
}

impl Summed for u64 {
    // The lower half, and then the upper one.
    fn added_to(self, sum: Checksum) -> Checksum {
        sum.with(low_32(self)).with(low_32(self >> 32))
    }
}

impl Number for u64 {
    // The upper half is all ones, which a number that is listed has to clear.
    fn of_bits(bits: u32) -> u64 {
        u64::from(bits) | 0xffff_ffff_0000_0000
    }
}

impl Summed for i64 {
    fn added_to(self, sum: Checksum) -> Checksum {
        sum.with(self.cast_unsigned())
    }
}

impl Number for i64 {
    fn of_bits(bits: u32) -> i64 {
        i64::from(bits)
    }
}
