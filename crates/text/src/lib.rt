// Document 01's text program on slices: a line is read a byte at a time, and a block of input becomes a block of output.
#![tactic(auto)]

mod grammar;
mod print;
mod stream;

pub use grammar::Scan;
pub use stream::{Done, LINE_ROOM, block, finish};
