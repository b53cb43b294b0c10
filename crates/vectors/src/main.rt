// Runs test vectors: one to a line of standard input, its answer to a line of standard output.
#![tactic(auto)]

mod answers;
mod boards;
mod buffer;
mod checksum;
mod coarse;
mod commands;
mod conversions;
mod differences;
mod fields;
mod files;
mod lists;
mod parts;
mod put;
mod salvages;
mod targets;

use buffer::Buffer;
use commands::State;
use put::{OUT_ROOM, Out};
use std::io::{Read, Write};

// The most bytes of a line that are held; a full list of numbers of ten digits takes 5,638.
const LINE_ROOM: usize = 8192;

// More bytes than the answer to a line has. A line `board` has the longest: a read of three bytes or more has five at most, any
// other call of five or more has nine at most, and there are 14 besides.
const ANSWER_ROOM: usize = 16384;

// The bytes of a line that are held; what is beyond its room is dropped.
type Line = Buffer<u8, LINE_ROOM>;

// Writes the output that waits; where it cannot be written, the answers are missing from it.
fn write_out(rt: HostRuntime, out: &mut Out) {
    let _ = rt.stdout().write_all(out.bytes());
    out.clear();
}

// Answers the line that is held; no write to `Out` fails.
fn answer(line: &Line, state: &mut State, out: &mut Out) {
    let _ = state.answer(line.items(), out);
}

// Takes one byte of input: a newline ends the line that is held.
fn take_byte(rt: HostRuntime, byte: u8, line: &mut Line, state: &mut State, out: &mut Out) {
    if byte != b'\n' {
        line.push(byte);
        return;
    }
    answer(line, state, out);
    line.clear();
    if out.bytes().len() >= OUT_ROOM - ANSWER_ROOM {
        write_out(rt, out);
    }
}

// Takes a block of input and writes its output.
fn take_block(rt: HostRuntime, input: &[u8], line: &mut Line, state: &mut State) {
    let mut out = Out::new();
    for byte in input {
        take_byte(rt, *byte, line, state, &mut out);
    }
    write_out(rt, &mut out);
}

// Reads once; answers whether there may be more to read.
fn read_some(rt: HostRuntime, line: &mut Line, state: &mut State) -> bool {
    let mut block = [0u8; 65536];
    let got = rt.stdin().read(&mut block).unwrap_or(0);
    take_block(rt, &block[..got.min(65536)], line, state);
    got > 0
}

// Answers a last line that has no newline.
fn finish(rt: HostRuntime, line: &Line, state: &mut State) {
    if line.len() > 0 {
        let mut out = Out::new();
        answer(line, state, &mut out);
        write_out(rt, &mut out);
    }
}

fn main(rt: HostRuntime) {
    let mut line = Line::new(0);
    let mut state = State::new();
    for _ in 0..u64::MAX {
        if !read_some(rt, &mut line, &mut state) {
            break;
        }
    }
    finish(rt, &line, &mut state);
}
