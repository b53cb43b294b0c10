// The output that waits to be written.
use crate::buffer::Buffer;
use refusal::Refusal;
use std::fmt;
use std::fmt::Write;

// The most bytes that wait.
pub(crate) const OUT_ROOM: usize = 65536;

// Bytes that are added one after another; what has no room is dropped, and no write fails.
#[derive(Drop)]
pub(crate) struct Out(Buffer<u8, OUT_ROOM>);

impl Out {
    pub(crate) fn new() -> Out {
        Out(Buffer::new(0))
    }

    pub(crate) fn bytes(&self) -> &[u8] {
        self.0.items()
    }

    pub(crate) fn clear(&mut self) {
        self.0.clear();
    }
}

impl fmt::Write for Out {
    fn write_str(&mut self, text: &str) -> fmt::Result {
        self.0.extend(text.as_bytes());
        Ok(())
    }
}

// The bits of a float, or all ones where it is a NaN, which has no bits that can be read.
pub(crate) fn bits(x: f64) -> u64 {
    if x.is_nan() { u64::MAX } else { x.to_bits() }
}

// The number of a refusal, alone on its line.
pub(crate) fn refused(refusal: Refusal, out: &mut Out) -> fmt::Result {
    let number = u8::from(refusal);
    writeln!(out, "{number}")
}

// `refusal count` with more to follow on its line.
pub(crate) fn counted(outcome: Result<usize, Refusal>, out: &mut Out) -> fmt::Result {
    match outcome {
        Ok(count) => write!(out, "0 {count} "),
        Err(refusal) => {
            let number = u8::from(refusal);
            write!(out, "{number} 0 ")
        }
    }
}
