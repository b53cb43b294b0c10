// Boards through the C ABI.
ghost use Rattle.std.specs.Prelude.{◌≡◌, MatchResult};
ghost use Rattle.records.specs.Columns.{columns, list_of};
ghost use Rattle.board.specs.Table.{reads, assigns};
ghost use Rattle.board.specs.Boards.{loaded, party_numbered};
ghost use Rattle.cct_c.specs.PlainBoards.{plain_told, plain_answered, asked};

use board::{Answered, Board, Denied, Lot, Party, Told, ZERO_LOT};
use records::Columns;
use refusal::Refusal;

// What a call is told: the lot, the stamp and the number of the refusal, with zeros in all that it does not carry.
#[repr(C)]
#[derive(Clone, Copy)]
pub struct PlainTold {
    pub lot: Lot,
    pub stamp: u16,
    pub refusal: u8,
}

const ZERO_TOLD: PlainTold = PlainTold {
    lot: ZERO_LOT,
    stamp: 0,
    refusal: 0,
};

// The board after a call, and what the call is told.
#[repr(C)]
#[derive(Clone, Copy)]
pub struct BoardAnswer {
    pub board: Board,
    pub told: PlainTold,
}

impl From<Result<Told, Denied>> for PlainTold {
    ghost from_gives = { λ told plain. plain ≡ plain_told told };

    fn from(told: Result<Told, Denied>) -> PlainTold {
        match told {
            Ok(Told::Holds(lot)) => PlainTold { lot, ..ZERO_TOLD },
            Ok(_) => ZERO_TOLD,
            Err(denied) => PlainTold {
                stamp: denied.stamp(),
                refusal: u8::from(Refusal::from(denied)),
                ..ZERO_TOLD
            },
        }
    }
}

impl From<Answered> for BoardAnswer {
    ghost from_gives = { λ answered plain. plain ≡ plain_answered answered };

    fn from(answered: Answered) -> BoardAnswer {
        BoardAnswer {
            board: answered.board,
            told: PlainTold::from(answered.told),
        }
    }
}

// Loads the records of two lists, ours and, in the columns with a 2, the partner's.
#[unsafe(no_mangle)]
pub extern "C" fn ck_board_load(
    u: &[u32],
    v: &[u32],
    place: &[u16],
    low: &[u16],
    high: &[u16],
    duv: &[i32],
    steps: &[u8],
    class: &[u8],
    u2: &[u32],
    v2: &[u32],
    place2: &[u16],
    low2: &[u16],
    high2: &[u16],
    duv2: &[i32],
    steps2: &[u8],
    class2: &[u8],
) -> BoardAnswer
    ensures answered { result ≡ plain_answered (loaded (list_of (columns u.now v.now place.now low.now high.now duv.now steps.now class.now)) (list_of (columns u2.now v2.now place2.now low2.now high2.now duv2.now steps2.now class2.now))) }
    ensures unchanged { columns u.exit.now v.exit.now place.exit.now low.exit.now high.exit.now duv.exit.now steps.exit.now class.exit.now ≡ columns u.entry.now v.entry.now place.entry.now low.entry.now high.entry.now duv.entry.now steps.entry.now class.entry.now }
    ensures theirs_unchanged { columns u2.exit.now v2.exit.now place2.exit.now low2.exit.now high2.exit.now duv2.exit.now steps2.exit.now class2.exit.now ≡ columns u2.entry.now v2.entry.now place2.entry.now low2.entry.now high2.entry.now duv2.entry.now steps2.entry.now class2.entry.now }
{
    let ours = Columns {
        u,
        v,
        place,
        low,
        high,
        duv,
        steps,
        class,
    };
    let theirs = Columns {
        u: u2,
        v: v2,
        place: place2,
        low: low2,
        high: high2,
        duv: duv2,
        steps: steps2,
        class: class2,
    };
    BoardAnswer::from(Board::load(ours, theirs))
}

// What a call in the name of a number's party is answered; a number that is no party's finds no place.
fn asked<F: FnOnce(Party) -> Answered>(party: u8, board: Board, call: F) -> Answered
    requires { F.IsAlwaysCallable call }
    ensures { MatchResult (party_numbered party) (λ w. F.post call w result) (λ d. result ≡ record { board = board; told = Err d }) }
{
    match Party::try_from(party) {
        Ok(party) => call(party),
        Err(denied) => Answered {
            board,
            told: Err(denied),
        },
    }
}

// Reads the lot at a place of the party's.
#[unsafe(no_mangle)]
pub extern "C" fn ck_board_read(board: Board, party: u8, place: usize) -> BoardAnswer
    ensures { result ≡ plain_answered (asked party board (λ w. reads w place)) }
{
    let answered = asked(party, board, |party| board.read(party, place));
    BoardAnswer::from(answered)
}

// Assigns the lot at a place of the party's to a job.
#[unsafe(no_mangle)]
pub extern "C" fn ck_board_assign(
    board: Board,
    party: u8,
    place: usize,
    stamp: u16,
    job: u32,
) -> BoardAnswer
    ensures { result ≡ plain_answered (asked party board (λ w. assigns w place stamp job)) }
{
    let answered = asked(party, board, |party| board.assign(party, place, stamp, job));
    BoardAnswer::from(answered)
}
