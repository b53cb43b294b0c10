// Record files: the columns that are held written to a target, and the file that is held read.
use crate::buffer::Buffer;
use crate::fields::Numbers;
use crate::lists::Lists;
use crate::put::Out;
use crate::targets::{checksum, put_pattern};
use crate::{fields, put};
use records::{ColumnsMut, Record};
use std::fmt;
use std::fmt::Write;

// The most bytes of the file that is held: a file of 65,535 records of 20 bytes has 1,310,708.
const HELD_ROOM: usize = 1310720;

// The most bytes that are written.
const WRITE_ROOM: usize = 65536;

// The most records that are read.
const READ_ROOM: usize = 4096;

// The file that is held.
pub(crate) type File = Buffer<u8, HELD_ROOM>;

// A column that a file is read into.
type Target<T> = Buffer<T, READ_ROOM>;

// Adds the bytes of a word of hexadecimal digits.
fn add_pairs(file: &mut File, digits: &[u8]) {
    for pair in digits.chunks_exact(2) {
        file.push(fields::byte_of(pair[0], pair[1]));
    }
}

// Adds the bytes of a word: hexadecimal digits, or `HEXxK` for K times the bytes HEX.
fn add_word(file: &mut File, word: &[u8]) {
    let (digits, times) = fields::run(word);
    for _ in 0..times {
        add_pairs(file, digits);
    }
}

// Replaces the file by the words of a text, each with a space before it; answers how many bytes it then has.
pub(crate) fn replace(file: &mut File, text: &[u8]) -> usize {
    file.clear();
    for word in text.split(|b| *b == b' ').skip(1) {
        add_word(file, word);
    }
    file.len()
}

// `refusal count checksum` of writing the columns that are held; what is written is then the file that is held.
pub(crate) fn write(room: u32, lists: &Lists, file: &mut File, out: &mut Out) -> fmt::Result {
    let mut target = Buffer::<u8, WRITE_ROOM>::new(0);
    put_pattern(&mut target, room);
    let written = records::write_records(lists.columns(), target.items_mut());
    if let Ok(count) = written {
        file.clear();
        file.extend(target.items().get(..count).unwrap_or(&[]));
    }
    put::counted(written, out)?;
    let sum = checksum(&target);
    writeln!(out, "{sum}")
}

// `refusal count` of the form of the file that is held.
pub(crate) fn form(file: &[u8], out: &mut Out) -> fmt::Result {
    match records::check_form(file) {
        Ok(form) => writeln!(out, "0 {}", form.count),
        Err(refusal) => writeln!(out, "{} 0", u8::from(refusal)),
    }
}

// `u v place low high duv steps class`.
fn put_record(record: Record, out: &mut Out) -> fmt::Result {
    write!(out, "{} {} {} ", record.u, record.v, record.place)?;
    write!(out, "{} {} {} ", record.low, record.high, record.duv)?;
    writeln!(out, "{} {}", record.steps, record.class)
}

// The record at an index of the file that is held.
pub(crate) fn record(file: &[u8], index: u64, out: &mut Out) -> fmt::Result {
    put_record(records::file_record(file, index as usize), out)
}

// `refusal count` and eight checksums of reading the file into columns of eight rooms.
pub(crate) fn read(file: &[u8], rooms: &Numbers, out: &mut Out) -> fmt::Result {
    let mut u = Target::<u32>::new(0);
    put_pattern(&mut u, rooms.at(0));
    let mut v = Target::<u32>::new(0);
    put_pattern(&mut v, rooms.at(1));
    let mut place = Target::<u16>::new(0);
    put_pattern(&mut place, rooms.at(2));
    let mut low = Target::<u16>::new(0);
    put_pattern(&mut low, rooms.at(3));
    let mut high = Target::<u16>::new(0);
    put_pattern(&mut high, rooms.at(4));
    let mut duv = Target::<i32>::new(0);
    put_pattern(&mut duv, rooms.at(5));
    let mut steps = Target::<u8>::new(0);
    put_pattern(&mut steps, rooms.at(6));
    let mut class = Target::<u8>::new(0);
    put_pattern(&mut class, rooms.at(7));
    let mut columns = ColumnsMut {
        u: u.items_mut(),
        v: v.items_mut(),
        place: place.items_mut(),
        low: low.items_mut(),
        high: high.items_mut(),
        duv: duv.items_mut(),
        steps: steps.items_mut(),
        class: class.items_mut(),
    };
    put::counted(records::read_records(file, &mut columns), out)?;
    write!(out, "{} {} ", checksum(&u), checksum(&v))?;
    write!(out, "{} {} ", checksum(&place), checksum(&low))?;
    write!(out, "{} {} ", checksum(&high), checksum(&duv))?;
    writeln!(out, "{} {}", checksum(&steps), checksum(&class))
}
