// Boards: a history of calls of two houses on a board that is loaded from the columns held.
ghost use Rattle.std.specs.Prelude.{◌<◌, ◌≤◌, length};

use crate::checksum::{Checksum, Number, Summed};
use crate::fields;
use crate::fields::low_32;
use crate::lists::Lists;
use crate::put::Out;
use board::{Answered, Board, Denied, Lot, Party, Told, ZERO_LOT};
use records::{Columns, Record};
use refusal::Refusal;
use std::fmt;
use std::fmt::Write;

// After each call the places from 0 on are shown, up to this number.
const SHOWN_PLACES: usize = 65;

// What a call asks for.
#[derive(Clone, Copy)]
enum Act {
    Read,
    // So many assignments, with stamp after stamp from the first.
    Assign { stamp: u16, job: u32, times: u32 },
}

// A call as a line names it.
#[derive(Clone, Copy)]
struct Call {
    party: Party,
    place: usize,
    act: Act,
}

// What a call's word says that it is; how many assignments are many follows in the line.
#[derive(Clone, Copy)]
enum Verb {
    Read,
    AssignOnce,
    AssignMany,
}

// Whose call a name is, and what it asks for: small letters are ours, and capitals the partner's.
fn verb_named(name: &[u8]) -> (Party, Verb) {
    match name {
        b"r" => (Party::Ours, Verb::Read),
        b"R" => (Party::Partner, Verb::Read),
        b"a" => (Party::Ours, Verb::AssignOnce),
        b"A" => (Party::Partner, Verb::AssignOnce),
        [] => (Party::Partner, Verb::AssignMany),
        [letter] if *letter < b'a' => (Party::Partner, Verb::AssignMany),
        _ => (Party::Ours, Verb::AssignMany),
    }
}

// The stamp and the job after the space that a text begins with, and what follows them.
fn next_job(text: &[u8]) -> (u16, u32, &[u8])
    ensures { length result.2.now ≤ length text.now }
{
    let (stamp, after_stamp) = fields::next_number(text);
    let (job, rest) = fields::next_number(after_stamp);
    (u16::of_bits(low_32(stamp)), low_32(job), rest)
}

// The call after the space that a text begins with, and what follows it.
fn next_call(text: &[u8]) -> (Call, &[u8])
    ensures { 0 < length text.now → length result.1.now < length text.now }
{
    let (word, after_word) = fields::next_word(text);
    let (party, verb) = verb_named(fields::name(word));
    let (place, after_place) = fields::next_number(after_word);
    let (act, rest) = match verb {
        Verb::Read => (Act::Read, after_place),
        Verb::AssignOnce => {
            let (stamp, job, rest) = next_job(after_place);
            let times = 1;
            (Act::Assign { stamp, job, times }, rest)
        }
        Verb::AssignMany => {
            let (stamp, job, after_job) = next_job(after_place);
            let (number, rest) = fields::next_number(after_job);
            let times = low_32(number);
            (Act::Assign { stamp, job, times }, rest)
        }
    };
    let call = Call {
        party,
        place: place as usize,
        act,
    };
    (call, rest)
}

impl Call {
    // Makes the call.
    fn make(self, board: Board) -> Answered {
        match self.act {
            Act::Read => board.read(self.party, self.place),
            Act::Assign { stamp, job, times } => self.assign(board, stamp, job, times),
        }
    }

    // Assignments with stamp after stamp, up to the largest; at least one is made, and the last one's answer is given.
    fn assign(self, board: Board, stamp: u16, job: u32, times: u32) -> Answered {
        let more = times.saturating_sub(1).min(u32::from(u16::MAX - stamp)) as u16;
        let mut answered = board.assign(self.party, self.place, stamp, job);
        for last in stamp..stamp + more {
            answered = answered.board.assign(self.party, self.place, last + 1, job);
        }
        answered
    }
}

// The number of the refusal told, 0 for none.
fn refusal_of(told: Result<Told, Denied>) -> u8 {
    match told {
        Ok(_) => 0,
        Err(denied) => u8::from(Refusal::from(denied)),
    }
}

// The stamp told, 0 for none.
fn stamp_of(told: Result<Told, Denied>) -> u16 {
    match told {
        Ok(_) => 0,
        Err(denied) => denied.stamp(),
    }
}

// The lot told, zeros for none.
fn lot_of(told: Result<Told, Denied>) -> Lot {
    match told {
        Ok(Told::Holds(lot)) => lot,
        _ => ZERO_LOT,
    }
}

impl Summed for Record {
    fn added_to(self, sum: Checksum) -> Checksum {
        sum.with(self.u)
            .with(self.v)
            .with(self.place)
            .with(self.low)
            .with(self.high)
            .with(self.duv)
            .with(self.steps)
            .with(self.class)
    }
}

impl Summed for Lot {
    fn added_to(self, sum: Checksum) -> Checksum {
        sum.with(self.record).with(self.job).with(self.stamp)
    }
}

// A checksum with what a party's read of a place is told.
fn with_read(sum: Checksum, board: Board, party: Party, place: usize) -> Checksum {
    let told = board.read(party, place).told;
    sum.with(refusal_of(told)).with(lot_of(told))
}

// With what reads of each place are told, ours and then the partner's.
impl Summed for Board {
    fn added_to(self, sum: Checksum) -> Checksum {
        let mut total = sum;
        for place in 0..SHOWN_PLACES {
            let ours = with_read(total, self, Party::Ours, place);
            total = with_read(ours, self, Party::Partner, place);
        }
        total
    }
}

// With what a call is told, and with the board that it hands back.
impl Summed for Answered {
    fn added_to(self, sum: Checksum) -> Checksum {
        sum.with(refusal_of(self.told))
            .with(stamp_of(self.told))
            .with(lot_of(self.told))
            .with(self.board)
    }
}

// The numbers of a column before an index, and those from it on; all of them, and none, where it has fewer.
fn halves<T>(column: &[T], at: usize) -> (&[T], &[T]) {
    column.split_at(at.min(column.len()))
}

// A board loaded from columns that are cut in two: of each the first numbers, up to `split`, are ours, and the others the partner's.
fn load_split(columns: Columns, split: usize) -> Answered {
    let (u, their_u) = halves(columns.u, split);
    let (v, their_v) = halves(columns.v, split);
    let (place, their_place) = halves(columns.place, split);
    let (low, their_low) = halves(columns.low, split);
    let (high, their_high) = halves(columns.high, split);
    let (duv, their_duv) = halves(columns.duv, split);
    let (steps, their_steps) = halves(columns.steps, split);
    let (class, their_class) = halves(columns.class, split);
    let ours = Columns {
        u,
        v,
        place,
        low,
        high,
        duv,
        steps,
        class,
    };
    let theirs = Columns {
        u: their_u,
        v: their_v,
        place: their_place,
        low: their_low,
        high: their_high,
        duv: their_duv,
        steps: their_steps,
        class: their_class,
    };
    Board::load(ours, theirs)
}

// `refusal` of the load that the text's first number splits, `refusal stamp` of each call that it then names, and a checksum.
pub(crate) fn history(text: &[u8], lists: &Lists, out: &mut Out) -> fmt::Result {
    let (split, mut rest) = fields::next_number(text);
    let loaded = load_split(lists.columns(), split as usize);
    let mut board = loaded.board;
    let mut sum = Checksum::new().with(loaded);
    write!(out, "{} ", refusal_of(loaded.told))?;
    while !rest.is_empty() {
        let (call, after) = next_call(rest);
        let answered = call.make(board);
        board = answered.board;
        sum = sum.with(answered);
        write!(
            out,
            "{} {} ",
            refusal_of(answered.told),
            stamp_of(answered.told)
        )?;
        rest = after;
    }
    writeln!(out, "{sum}")
}
