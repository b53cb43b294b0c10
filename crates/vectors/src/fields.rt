// The fields of a line: words, decimal numbers and hexadecimal numbers, one space between.
ghost use Rattle.std.specs.Prelude.{◌<◌, ◌≤◌, length};

use crate::buffer::Buffer;

// The most numbers of a line that are told apart.
const MOST_NUMBERS: usize = 64;

// The numbers of a line.
#[derive(Drop)]
pub(crate) struct Numbers(Buffer<u32, MOST_NUMBERS>);

// The base that a number is written in.
#[derive(Clone, Copy)]
enum Base {
    Ten = 10,
    Sixteen = 16,
}

// A text before the first `byte`, and from it on; the whole text, and nothing, where there is none.
pub(crate) fn cut(text: &[u8], byte: u8) -> (&[u8], &[u8])
    ensures { length result.1.now ≤ length text.now }
{
    let end = text.iter().position(|b| *b == byte).unwrap_or(text.len());
    (&text[..end], &text[end..])
}

// The word after the space that a text begins with, and what follows the word; nothing where the text ends.
pub(crate) fn next_word(text: &[u8]) -> (&[u8], &[u8])
    ensures within { length result.1.now ≤ length text.now }
    ensures shorter { 0 < length text.now → length result.1.now < length text.now }
{
    match text {
        [] => (text, text),
        [_, rest @ ..] => cut(rest, b' '),
    }
}

// The name that a word stands for: its last eight bytes, without the zeros that they begin with.
pub(crate) fn name(word: &[u8]) -> &[u8] {
    let last = &word[word.len().saturating_sub(8)..];
    let start = last.iter().position(|b| *b != 0).unwrap_or(last.len());
    &last[start..]
}

// What a digit of base 16 or less stands for; any other byte counts as 0.
fn digit(byte: u8) -> u8
    ensures { result < 16 }
{
    match byte {
        b'0'..=b'9' => byte - b'0',
        b'a'..=b'f' => byte - b'a' + 10,
        _ => 0,
    }
}

// The byte of two hexadecimal digits.
pub(crate) fn byte_of(high: u8, low: u8) -> u8 {
    digit(high) << 4 | digit(low)
}

// A number with one more digit; only the last 32 bits are kept.
fn with_digit(value: u32, base: Base, byte: u8) -> u32 {
    value
        .wrapping_mul(base as u32)
        .wrapping_add(u32::from(digit(byte)))
}

// A decimal number; only the last 64 bits are kept.
pub(crate) fn long_decimal(text: &[u8]) -> u64 {
    text.iter().fold(0u64, |value, byte| {
        value.wrapping_mul(10).wrapping_add(u64::from(digit(*byte)))
    })
}

// The number after the space that a text begins with, and what follows it; 0 where the text ends.
pub(crate) fn next_number(text: &[u8]) -> (u64, &[u8])
    ensures { length result.1.now ≤ length text.now }
{
    let (word, rest) = next_word(text);
    (long_decimal(word), rest)
}

// The last 32 bits of a number.
pub(crate) fn low_32(number: u64) -> u32 {
    (number & 0xffff_ffff) as u32
}

// A decimal number; only the last 32 bits are kept.
pub(crate) fn decimal(text: &[u8]) -> u32 {
    low_32(long_decimal(text))
}

// What a field writes, and how many times it stands in a row: `TEXT` stands for TEXT once, `TEXTxK` for TEXT K times.
pub(crate) fn run(field: &[u8]) -> (&[u8], u32) {
    let (text, times) = cut(field, b'x');
    match times {
        [] => (text, 1),
        [_, times @ ..] => (text, decimal(times)),
    }
}

impl Numbers {
    // Reads numbers, each with a space before it, the first `hex_fields` of them in base 16.
    pub(crate) fn read(text: &[u8], hex_fields: usize) -> Numbers {
        let mut numbers = Numbers(Buffer::new(0));
        for byte in text {
            numbers.take(*byte, hex_fields);
        }
        numbers
    }

    // Takes one byte: a space begins the next number, any other is a digit of the number begun last.
    fn take(&mut self, byte: u8, hex_fields: usize) {
        if byte == b' ' {
            self.0.push(0);
            return;
        }
        let base = if self.0.len() <= hex_fields {
            Base::Sixteen
        } else {
            Base::Ten
        };
        if let Some(last) = self.0.pop() {
            self.0.push(with_digit(last, base, byte));
        }
    }

    // The number at an index, 0 where there is none.
    pub(crate) fn at(&self, index: usize) -> u32 {
        self.from(index).first().copied().unwrap_or(0)
    }

    // The numbers from an index on.
    pub(crate) fn from(&self, start: usize) -> &[u32] {
        self.0.items().get(start..).unwrap_or(&[])
    }
}
