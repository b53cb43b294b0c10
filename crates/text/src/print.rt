// The line that answers a line of the input, appended to the output.
ghost use Rattle.std.specs.Prelude.{◌≡◌, [], ◌∷◌, length, ◌+◌, ◌≤◌};
ghost use Rattle.reading.specs.Convert.{convert_micro};
ghost use Rattle.cct.specs.Answers.{answer};
ghost use Rattle.text.specs.Wrote.{Wrote};
ghost use Rattle.text.specs.Decimal.{decimal, signed};
ghost use Rattle.text.specs.Print.{program_edges, class_text, answer_text, reply_to, reply_line};
ghost use Rattle.text.specs.Code.Halves.{field_text, places_text, rest_text};
ghost use Rattle.text.specs.Code.Put.{Room, Put};

use crate::grammar::{DIGIT_ZERO, NEWLINE, Request, SPACE};
use cct::Answer;
use itoa::Buffer;
use reading::Micro;
use refusal::Refusal;

const MINUS_SIGN: u8 = b'-';

// The program's class edges.
const EDGES: [u32; 5] = [1600, 2500, 3500, 5000, 20001];

// The answer to a request at the program's class edges.
fn answer_of(asked: Request) -> Answer
    ensures { result ≡ answer program_edges (convert_micro asked.u asked.v) asked.max_steps }
{
    let reading = Micro {
        u: asked.u,
        v: asked.v,
    };
    cct::whole_answer(reading, &EDGES, asked.max_steps)
}

// A buffer, and where the output in it ends.
#[derive(Drop)]
struct Output<'a> {
    bytes: &'a mut [u8],
    end: usize,
}

impl<'a> Output<'a> {
    // One byte.
    fn byte(&mut self, b: u8)
        requires { Room self.old 1 }
        ensures { Put self.old self.new (b ∷ []) }
    {
        self.bytes[self.end] = b;
        self.end += 1;
    }

    // Some bytes.
    fn text(&mut self, text: &[u8])
        requires { Room self.old (length text.now) }
        ensures { Put self.old self.new text.now }
    {
        let end = self.end + text.len();
        self.bytes[self.end..end].copy_from_slice(text);
        self.end = end;
    }

    // n in decimal. A number of one digit, as a refusal and a class are, is put without the library, which takes longer for it.
    #[tactic(auto, using(crate::proofs::Decimal::one_digit))]
    fn number(&mut self, n: u32)
        requires { Room self.old 10 }
        ensures { Put self.old self.new (decimal n) }
    {
        if n < 10 {
            return self.byte(DIGIT_ZERO + n as u8);
        }
        self.text(Buffer::new().format(n).as_bytes());
    }

    // z in decimal, with a minus sign where it is below zero.
    #[tactic(auto, using(crate::proofs::Decimal::signed_printed))]
    fn signed(&mut self, z: i32)
        requires { Room self.old 11 }
        ensures { Put self.old self.new (signed z) }
    {
        self.text(Buffer::new().format(z).as_bytes());
    }

    // A space, and n in decimal.
    fn field(&mut self, n: u32)
        requires { Room self.old 11 }
        ensures { Put self.old self.new (field_text n) }
    {
        self.byte(SPACE);
        self.number(n);
    }

    // The class, or a minus sign for none.
    fn class(&mut self, class: u8)
        requires { Room self.old 10 }
        ensures { Put self.old self.new (class_text class) }
    {
        if class == classes::NO_CLASS {
            return self.byte(MINUS_SIGN);
        }
        self.number(class as u32);
    }

    // The first half of an accepted answer: 0, the place and the bracket.
    fn places(&mut self, answer: Answer)
        requires { Room self.old 34 }
        ensures { Put self.old self.new (places_text answer.place answer.low answer.high) }
    {
        self.byte(DIGIT_ZERO);
        self.field(answer.place);
        self.field(answer.low);
        self.field(answer.high);
    }

    // The second half: Duv, the steps and the class.
    fn rest(&mut self, answer: Answer)
        requires { Room self.old 34 }
        ensures { Put self.old self.new (rest_text answer.duv answer.steps answer.class) }
    {
        self.byte(SPACE);
        self.signed(answer.duv);
        self.field(answer.steps as u32);
        self.byte(SPACE);
        self.class(answer.class);
    }

    // An answer.
    fn answer(&mut self, answer: Answer)
        requires { Room self.old 68 }
        ensures { Put self.old self.new (answer_text answer) }
    {
        if answer.refusal == 0 {
            self.places(answer);
            return self.rest(answer);
        }
        self.number(answer.refusal as u32);
    }

    // The answer to what a line says.
    #[tactic(auto, unfolding(crate::specs::Print::reply_to))]
    fn reply(&mut self, line: Result<Request, Refusal>)
        requires { Room self.old 68 }
        ensures { Put self.old self.new (reply_to line) }
    {
        match line {
            Ok(asked) => self.answer(answer_of(asked)),
            Err(refusal) => self.number(u8::from(refusal) as u32),
        }
    }

    // The answer with its newline.
    #[tactic(auto, using(crate::specs::PrintLaws::reply_short))]
    fn line(&mut self, line: Result<Request, Refusal>)
        requires { Room self.old 69 }
        ensures { Put self.old self.new (reply_line line) }
    {
        self.reply(line);
        self.byte(NEWLINE);
    }
}

// Puts the answer to what a line says, with its newline, at a place of a buffer; answers where it ends.
pub(crate) fn put_line(line: Result<Request, Refusal>, bytes: &mut [u8], at: usize) -> usize
    requires { at + 69 ≤ length bytes.old }
    ensures { Wrote at bytes.old bytes.new result (reply_line line) }
{
    let mut output = Output { bytes, end: at };
    output.line(line);
    output.end
}
