// Comparisons: the differences of the first file and the file that is held, listed in a target.
use crate::buffer::Buffer;
use crate::put::Out;
use crate::targets::{checksum, put_pattern};
use compare::NotCompared;
use refusal::Refusal;
use std::fmt;
use std::fmt::Write;

// The most numbers of a target: 64 more than 28,800 entries take, and two files have no more differences.
const LIST_ROOM: usize = 115264;

// The number of the file that is refused, 0 for none.
fn refused_file(error: NotCompared) -> u8 {
    match error {
        NotCompared::First(_) => 1,
        NotCompared::Second(_) => 2,
        NotCompared::NoRoom => 0,
    }
}

// `file refusal count` of what a comparison came to, 0 for none of each, with more to follow on its line.
fn put_compared(compared: Result<usize, NotCompared>, out: &mut Out) -> fmt::Result {
    match compared {
        Ok(count) => write!(out, "0 0 {count} "),
        Err(error) => {
            let file = refused_file(error);
            let refusal = u8::from(Refusal::from(error));
            write!(out, "{file} {refusal} 0 ")
        }
    }
}

// `file refusal count checksum` of comparing two files, with room for so many numbers.
pub(crate) fn compare(first: &[u8], second: &[u8], room: u32, out: &mut Out) -> fmt::Result {
    let mut target = Buffer::<i64, LIST_ROOM>::new(0);
    put_pattern(&mut target, room);
    let compared = compare::compare_files(first, second, target.items_mut());
    put_compared(compared, out)?;
    let sum = checksum(&target);
    writeln!(out, "{sum}")
}
