// Reads lines from standard input and writes the answer to each to standard output.
#![tactic(auto)]

ghost use Rattle.std.specs.Prelude.{◌≤◌, ◌≡◌, length};
ghost use Rattle.text.specs.Block.{line_room};
ghost use Rattle.cradlekeel.specs.Code.Turns.{AfterBlock, AfterRead, AfterSomeRead, AfterWrite, after_write};

use std::io::{Read, Write};
use std::process::ExitCode;
use std::{fmt, io};
use text::Scan;

// How many bytes a read takes, and how many bytes of answers are written at once, at the most.
const BLOCK: usize = 65536;

// The exit status where nobody reads the output any more: as if the signal for that had ended the program.
const UNREAD: u8 = 141;

// Why the program stops before its input has ended.
#[derive(Clone, Copy, PartialEq, Eq, Debug)]
enum Stop {
    NoRead,
    NoWrite,
    // Nobody reads the output any more.
    Unread,
}

impl fmt::Display for Stop {
    fn fmt<W: fmt::Write>(&self, f: &mut fmt::Formatter<W>) -> fmt::Result {
        match self {
            Stop::NoRead => write!(f, "cannot read standard input"),
            Stop::NoWrite => write!(f, "cannot write standard output"),
            Stop::Unread => write!(f, "nobody reads standard output"),
        }
    }
}

impl Stop {
    // Says on standard error what failed, where anybody still reads the output; where that cannot be written either, nothing is left to tell.
    fn status(self, rt: HostRuntime) -> ExitCode {
        if self == Stop::Unread {
            return ExitCode::from(UNREAD);
        }
        let _ = eprintln!(rt; "cradlekeel: {self}");
        ExitCode::SUCCESS
    }
}

// Writes to standard output.
fn write_out(rt: HostRuntime, bytes: &[u8]) -> Result<(), Stop>
    ensures { AfterWrite result }
{
    rt.stdout().write_all(bytes).map_err(|e| {
        if e.kind() == io::ErrorKind::BrokenPipe {
            Stop::Unread
        } else {
            Stop::NoWrite
        }
    })
}

// Carries the line on after a write, where all was written.
fn after_write(written: Result<(), Stop>, line: Scan) -> Result<Scan, Stop>
    ensures { result ≡ after_write written line }
{
    written?;
    Ok(line)
}

// Writes the answers to the lines that end in a block of input; answers the line so far after it.
fn answer_block(rt: HostRuntime, scan: Scan, input: &[u8], output: &mut [u8]) -> Result<Scan, Stop>
    requires { line_room ≤ length output.old }
    ensures { AfterBlock scan input.now result }
{
    let mut line = scan;
    let mut rest = input;
    while !rest.is_empty() {
        let done = text::block(line, rest, output);
        let written = write_out(rt, &output[..done.written]);
        line = after_write(written, done.scan)?;
        rest = &rest[done.read..];
    }
    Ok(line)
}

// Answers what a read into the input brought; answers the line so far after it, or none where the input has ended.
fn answer_read(
    rt: HostRuntime,
    scan: Scan,
    input: &[u8],
    got: io::Result<usize>,
    output: &mut [u8],
) -> Result<Option<Scan>, Stop>
    requires { line_room ≤ length output.old }
    ensures { AfterRead scan input.now got result }
{
    let Ok(count) = got else {
        return Err(Stop::NoRead);
    };
    if count == 0 {
        return Ok(None);
    }
    let n = count.min(input.len());
    Ok(Some(answer_block(rt, scan, &input[..n], output)?))
}

// Reads once, and answers what was read.
fn read_block(
    rt: HostRuntime,
    scan: Scan,
    input: &mut [u8],
    output: &mut [u8],
) -> Result<Option<Scan>, Stop>
    requires { line_room ≤ length output.old }
    ensures { AfterSomeRead scan input.new result }
{
    let got = rt.stdin().read(input);
    answer_read(rt, scan, input, got, output)
}

// Answers the whole input.
fn answer_input(rt: HostRuntime) -> Result<(), Stop> {
    let mut input = [0u8; BLOCK];
    let mut output = [0u8; BLOCK];
    let mut line = Scan::new();
    // Nothing says that the input ends, so the reads are counted; no input takes so many.
    for _ in 0..u64::MAX {
        let Some(next) = read_block(rt, line, &mut input, &mut output)? else {
            break;
        };
        line = next;
    }
    let mut last = [0u8; text::LINE_ROOM];
    let n = text::finish(line, &mut last);
    write_out(rt, &last[..n])
}

fn main(rt: HostRuntime) -> ExitCode {
    match answer_input(rt) {
        Ok(()) => ExitCode::SUCCESS,
        Err(stop) => stop.status(rt),
    }
}
