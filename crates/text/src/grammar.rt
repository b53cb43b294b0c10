// What a line of the input says, read a byte at a time.
ghost use Rattle.std.specs.Prelude.{◌≡◌, ◌≤◌};
ghost use Rattle.text.specs.Code.Scan.{after_space, after_digit, after_byte, asked, empty_scan, scan_byte, is_empty, scan_line};

use refusal::Refusal;

// What a line asks for: the answer to u and v in micro, after so many steps at the most.
#[derive(Clone, Copy, PartialEq, Eq, Debug)]
pub(crate) struct Request {
    pub(crate) u: u32,
    pub(crate) v: u32,
    pub(crate) max_steps: u32,
}

// The most steps to take where a line has two numbers.
const DEFAULT_STEPS: u32 = 6;

// Bytes of ASCII.
pub(crate) const NEWLINE: u8 = b'\n';

pub(crate) const SPACE: u8 = b' ';

pub(crate) const DIGIT_ZERO: u8 = b'0';

const DIGIT_NINE: u8 = b'9';

// The numbers of a line: how many are before the one being read, the two last of those, and that one with how many digits are read.
#[derive(Clone, Copy, Default)]
struct Numbers {
    earlier: u32,
    previous: u32,
    current: u32,
    spaces: u8,
    digits: u8,
}

impl Numbers {
    fn space(self) -> Option<Self>
        ensures { result ≡ after_space self }
    {
        if 1 < self.spaces || self.digits == 0 {
            return None;
        }
        Some(Self {
            earlier: self.previous,
            previous: self.current,
            current: 0,
            spaces: self.spaces + 1,
            digits: 0,
        })
    }

    // The last test only shows that the sum fits: fewer than 7 digits are below a million.
    fn digit(self, d: u8) -> Option<Self>
        requires { d ≤ 9 }
        ensures { result ≡ after_digit self d }
    {
        if 6 < self.digits || 999999 < self.current {
            return None;
        }
        Some(Self {
            current: 10 * self.current + u32::from(d),
            digits: self.digits + 1,
            ..self
        })
    }

    fn byte(self, x: u8) -> Option<Self>
        ensures { result ≡ after_byte self x }
    {
        match x {
            SPACE => self.space(),
            DIGIT_ZERO..=DIGIT_NINE => self.digit(x - DIGIT_ZERO),
            _ => None,
        }
    }

    // What the line asks for if it ends here.
    fn request(self) -> Option<Request>
        ensures { result ≡ asked self }
    {
        if self.digits == 0 {
            return None;
        }
        match self.spaces {
            1 => Some(Request {
                u: self.previous,
                v: self.current,
                max_steps: DEFAULT_STEPS,
            }),
            2 => Some(Request {
                u: self.earlier,
                v: self.previous,
                max_steps: self.current,
            }),
            _ => None,
        }
    }
}

// A line as far as it has been read: its numbers, or none where it cannot be read, whatever follows.
#[derive(Clone, Copy)]
pub struct Scan {
    numbers: Option<Numbers>,
}

impl Scan {
    pub fn new() -> Self
        ensures { result ≡ empty_scan }
    {
        Self {
            numbers: Some(Numbers::default()),
        }
    }

    pub(crate) fn byte(self, x: u8) -> Self
        ensures { result ≡ scan_byte self x }
    {
        let Some(numbers) = self.numbers else {
            return self;
        };
        Self {
            numbers: numbers.byte(x),
        }
    }

    // Whether no byte has been read.
    pub(crate) fn is_empty(self) -> bool
        ensures { result ≡ is_empty self }
    {
        self.numbers.is_some_and(|n| n.spaces == 0 && n.digits == 0)
    }

    // What the line says if it ends here, or refusal 8.
    pub(crate) fn line(self) -> Result<Request, Refusal>
        ensures { result ≡ scan_line self }
    {
        self.numbers
            .and_then(|n| n.request())
            .ok_or(Refusal::BadLine)
    }
}
