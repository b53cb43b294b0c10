// Blocks of input turned into blocks of output.
ghost use Rattle.std.specs.Prelude.{◌≡◌};
ghost use Rattle.text.specs.Wrote.{Wrote};
ghost use Rattle.text.specs.Block.{closes, Blocked};

use crate::grammar::{NEWLINE, Scan};
use crate::print;

// Room for any answer with its newline.
pub const LINE_ROOM: usize = 80;

// What a block of input came to: the line so far, the bytes read and the bytes written.
#[derive(Clone, Copy)]
pub struct Done {
    pub scan: Scan,
    pub read: usize,
    pub written: usize,
}

// A block of the input, as far as there is room for its output.
pub fn block(scan: Scan, input: &[u8], out: &mut [u8]) -> Done
    ensures result { Blocked scan input.now out.old out.new result }
    ensures unchanged { input.exit.now ≡ input.entry.now }
{
    let mut line = scan;
    let mut end = 0;
    for (i, x) in input.iter().enumerate() {
        if out.len() - end < LINE_ROOM {
            return Done {
                scan: line,
                read: i,
                written: end,
            };
        }
        if *x == NEWLINE {
            end = print::put_line(line.line(), out, end);
            line = Scan::new();
        } else {
            line = line.byte(*x);
        }
    }
    Done {
        scan: line,
        read: input.len(),
        written: end,
    }
}

// The end of the input: a last line without its newline is answered too.
pub fn finish(scan: Scan, out: &mut [u8; LINE_ROOM]) -> usize
    ensures { Wrote 0 out.old out.new result (closes scan) }
{
    if scan.is_empty() {
        return 0;
    }
    print::put_line(scan.line(), out, 0)
}
