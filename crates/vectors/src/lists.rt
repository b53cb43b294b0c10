// The lists of numbers that are held from line to line: the four of a spectral reading, and the eight columns of a list
// of records.
use crate::buffer::Buffer;
use crate::checksum::Number;
use crate::fields;
use records::Columns;
use spectral::Samples;

// The most numbers of a spectral list: more than the 471 of the longest reading, so that longer ones can be tried.
const SPECTRAL_ROOM: usize = 512;

// The most numbers of a column: as many more than 65,536 as a file has records, so that counts that wrap can be tried.
const COLUMN_ROOM: usize = 69136;

type Spectral = Buffer<u32, SPECTRAL_ROOM>;

type Column<T> = Buffer<T, COLUMN_ROOM>;

#[derive(Drop)]
pub(crate) struct Lists {
    // spectral samples
    samples: Spectral,
    // the colour-matching functions at the samples' wavelengths
    x_bar: Spectral,
    y_bar: Spectral,
    z_bar: Spectral,
    // the fields of records
    u: Column<u32>,
    v: Column<u32>,
    place: Column<u16>,
    low: Column<u16>,
    high: Column<u16>,
    duv: Column<i32>,
    steps: Column<u8>,
    class: Column<u8>,
}

// A decimal number; one below zero by the 32 bits that hold it.
fn value_of(text: &[u8]) -> u32 {
    let value = fields::decimal(text);
    if text.starts_with(b"-") {
        value.wrapping_neg()
    } else {
        value
    }
}

// Adds the run of numbers that a field writes to a list.
fn add_run<T: Number, const N: usize>(list: &mut Buffer<T, N>, field: &[u8]) {
    let (text, times) = fields::run(field);
    let number = T::of_bits(value_of(text));
    for _ in 0..times {
        list.push(number);
    }
}

// Replaces what a list holds by the numbers of a text, each with a space before it; answers how many it then holds.
fn refill<T: Number, const N: usize>(list: &mut Buffer<T, N>, text: &[u8]) -> usize {
    list.clear();
    for field in text.split(|b| *b == b' ').skip(1) {
        add_run(list, field);
    }
    list.len()
}

impl Lists {
    // Lists that hold nothing.
    pub(crate) fn new() -> Lists {
        Lists {
            samples: Buffer::new(0),
            x_bar: Buffer::new(0),
            y_bar: Buffer::new(0),
            z_bar: Buffer::new(0),
            u: Buffer::new(0),
            v: Buffer::new(0),
            place: Buffer::new(0),
            low: Buffer::new(0),
            high: Buffer::new(0),
            duv: Buffer::new(0),
            steps: Buffer::new(0),
            class: Buffer::new(0),
        }
    }

    // The spectral reading that is held.
    pub(crate) fn samples(&self) -> Samples<'_> {
        Samples {
            samples: self.samples.items(),
            x_bar: self.x_bar.items(),
            y_bar: self.y_bar.items(),
            z_bar: self.z_bar.items(),
        }
    }

    // The columns that are held.
    pub(crate) fn columns(&self) -> Columns<'_> {
        Columns {
            u: self.u.items(),
            v: self.v.items(),
            place: self.place.items(),
            low: self.low.items(),
            high: self.high.items(),
            duv: self.duv.items(),
            steps: self.steps.items(),
            class: self.class.items(),
        }
    }

    // Replaces the spectral list that a text names by the numbers after the name; any other name than these counts as z.
    pub(crate) fn replace_spectral(&mut self, text: &[u8]) -> usize {
        let (word, numbers) = fields::next_word(text);
        match fields::name(word) {
            b"s" => refill(&mut self.samples, numbers),
            b"x" => refill(&mut self.x_bar, numbers),
            b"y" => refill(&mut self.y_bar, numbers),
            _ => refill(&mut self.z_bar, numbers),
        }
    }

    // Replaces the column that a text names by the numbers after the name; any other name than these counts as c.
    pub(crate) fn replace_column(&mut self, text: &[u8]) -> usize {
        let (word, numbers) = fields::next_word(text);
        match fields::name(word) {
            b"u" => refill(&mut self.u, numbers),
            b"v" => refill(&mut self.v, numbers),
            b"p" => refill(&mut self.place, numbers),
            b"l" => refill(&mut self.low, numbers),
            b"h" => refill(&mut self.high, numbers),
            b"d" => refill(&mut self.duv, numbers),
            b"s" => refill(&mut self.steps, numbers),
            _ => refill(&mut self.class, numbers),
        }
    }
}
