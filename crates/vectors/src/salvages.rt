// Salvage: the records of the file that is held, by a record length and edges, into two targets.
use crate::buffer::Buffer;
use crate::fields;
use crate::fields::Numbers;
use crate::put::Out;
use crate::targets::{checksum, put_pattern};
use refusal::Refusal;
use salvage::Salvaged;
use std::fmt;
use std::fmt::Write;

// The most bytes of the new file.
const FILE_ROOM: usize = 65536;

// The most numbers of a list of dropped records: 79 more than a file that fills its room has records of 18 bytes.
const LIST_ROOM: usize = 72896;

// `refusal kept dropped leftover` of what a salvage came to, zeros after a refusal, with more to follow on its line.
fn put_salvaged(salvaged: Result<Salvaged, Refusal>, out: &mut Out) -> fmt::Result {
    match salvaged {
        Ok(done) => write!(out, "0 {} {} {} ", done.kept, done.dropped, done.leftover),
        Err(refusal) => write!(out, "{} 0 0 0 ", u8::from(refusal)),
    }
}

// `refusal kept dropped leftover`, and a checksum of each target, of salvaging bytes. The text has the record length in
// 64 bits, and the numbers are that, the rooms of the new file and of the list, and the edges.
pub(crate) fn salvage(bytes: &[u8], text: &[u8], numbers: &Numbers, out: &mut Out) -> fmt::Result {
    let (record_length, _) = fields::next_number(text);
    let mut file = Buffer::<u8, FILE_ROOM>::new(0);
    let mut list = Buffer::<u64, LIST_ROOM>::new(0);
    put_pattern(&mut file, numbers.at(1));
    put_pattern(&mut list, numbers.at(2));
    let salvaged = salvage::salvage(
        bytes,
        record_length as usize,
        numbers.from(3),
        file.items_mut(),
        list.items_mut(),
    );
    put_salvaged(salvaged, out)?;
    writeln!(out, "{} {}", checksum(&file), checksum(&list))
}
