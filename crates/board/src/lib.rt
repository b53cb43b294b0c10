// A board of lots that dispatchers of two houses share (document 02, No. 6 and 11).
#![tactic(auto)]

ghost use Rattle.std.specs.Prelude.{◌≡◌, [], ◌∷◌, ◌++◌, map, ◌+◌, ◌≤◌, ◌<◌, leb};
ghost use Rattle.records.specs.Columns.{size_of, list_of};
ghost use Rattle.records.specs.Slices.{held};
ghost use Rattle.board.specs.Table.{most_lots, fresh, refusal_of, stamp_of, reads, assigns, reaches, found};
ghost use Rattle.board.specs.Boards.{party_numbered, board_of, table_of, owns, loaded, handed};

use records::{Columns, Record, ZERO_RECORD};
use refusal::Refusal;

// The most lots of a board.
const MOST_LOTS: usize = 64;

// The largest stamp.
const LAST_STAMP: u16 = u16::MAX;

// A house that has lots on the board: ours, or the partner's.
#[derive(Clone, Copy, PartialEq, Eq, Debug)]
pub enum Party {
    Ours,
    Partner,
}

// The parties by their numbers; no place is another number's.
impl TryFrom<u8> for Party {
    type Error = Denied;

    ghost try_from_gives = { λ number party. party ≡ party_numbered number };

    fn try_from(number: u8) -> Result<Party, Denied> {
        match number {
            0 => Ok(Party::Ours),
            1 => Ok(Party::Partner),
            _ => Err(Denied::NoSuchPlace),
        }
    }
}

// A record with what is decided about it.
#[repr(C)]
#[derive(Clone, Copy, PartialEq, Eq, Debug)]
pub struct Lot {
    pub record: Record,
    // The job that it is assigned to, or 0 for none.
    pub job: u32,
    // How many jobs have been stored here since the board was loaded.
    pub stamp: u16,
}

// A lot as it is loaded: no job yet, and the first stamp.
impl From<Record> for Lot {
    ghost from_gives = { λ r lot. lot ≡ fresh r };

    fn from(record: Record) -> Lot {
        Lot {
            record,
            job: 0,
            stamp: 0,
        }
    }
}

// A lot of zeros.
pub const ZERO_LOT: Lot = Lot {
    record: ZERO_RECORD,
    job: 0,
    stamp: 0,
};

// The lots in the order of their places, from 0: ours, then the partner's; the slots beyond them are zero.
#[repr(C)]
#[derive(Clone, Copy, PartialEq, Eq, Debug)]
pub struct Board {
    // How many lots are ours, and how many there are.
    ours: usize,
    count: usize,
    lots: [Lot; MOST_LOTS],
}

// What a call is told.
#[derive(Clone, Copy, PartialEq, Eq, Debug)]
pub enum Told {
    // The board is loaded.
    Loaded,
    // The lot at the place that was read.
    Holds(Lot),
    // The job is stored.
    Stored,
}

// Why a load or a call is refused.
#[derive(Clone, Copy, PartialEq, Eq, Debug)]
pub enum Denied {
    // More lots than a board has places.
    TooManyLots,
    // A place that has no lot of the party's.
    NoSuchPlace,
    // A stamp that is not the lot's current one, which is told.
    StaleStamp(u16),
    // A lot whose stamp cannot be raised.
    LastStamp,
}

impl From<Denied> for Refusal {
    ghost from_gives = { λ denied refusal. refusal ≡ refusal_of denied };

    fn from(denied: Denied) -> Refusal {
        match denied {
            Denied::TooManyLots => Refusal::TooManyLots,
            Denied::NoSuchPlace => Refusal::NoSuchPlace,
            Denied::StaleStamp(_) => Refusal::StaleStamp,
            Denied::LastStamp => Refusal::LastStamp,
        }
    }
}

impl Denied {
    // The current stamp with `StaleStamp`, which alone carries one; 0 with the others.
    pub fn stamp(self) -> u16
        ensures { result ≡ stamp_of self }
    {
        match self {
            Denied::StaleStamp(stamp) => stamp,
            _ => 0,
        }
    }
}

// The board after a call, and what the call is told or why it is refused.
#[derive(Clone, Copy, PartialEq, Eq, Debug)]
pub struct Answered {
    pub board: Board,
    pub told: Result<Told, Denied>,
}

// Whether two lists have at most 64 records together.
fn fits(n: usize, m: usize) -> bool
    ensures { result ≡ leb (n + m) most_lots }
{
    n.saturating_add(m) <= MOST_LOTS
}

impl Board {
    // The board of no lots; `ours` says how many places are to be ours.
    fn empty(ours: usize) -> Board
        ensures { result ≡ board_of ours [] }
    {
        Board {
            ours,
            count: 0,
            lots: [ZERO_LOT; MOST_LOTS],
        }
    }

    // Puts a lot behind the others.
    fn push(&mut self, lot: Lot)
        requires room { self.old.count < most_lots }
        requires board { self.old ≡ board_of self.old.ours (table_of self.old) }
        ensures { self.new ≡ board_of self.old.ours (table_of self.old ++ (lot ∷ [])) }
    {
        self.lots[self.count] = lot;
        self.count += 1;
    }

    // The board with the records of a list behind its lots.
    fn with_list(mut self, list: Columns) -> Board
        requires room { self.count + size_of (held list) ≤ most_lots }
        requires board { self ≡ board_of self.ours (table_of self) }
        ensures { result ≡ board_of self.ours (table_of self ++ map fresh (list_of (held list.entry))) }
    {
        for i in 0..list.len() {
            self.push(Lot::from(list.record(i)));
        }
        self
    }

    // Loads the records of two lists, each in its order: ours, and behind them the partner's. A refusal hands back the board of no lots.
    pub fn load(ours: Columns, theirs: Columns) -> Answered
        ensures answered { result ≡ loaded (list_of (held ours.entry)) (list_of (held theirs.entry)) }
        ensures unchanged { held ours.exit ≡ held ours.entry }
        ensures theirs_unchanged { held theirs.exit ≡ held theirs.entry }
    {
        let n = ours.len();
        let m = theirs.len();
        if !fits(n, m) {
            return Answered {
                board: Board::empty(0),
                told: Err(Denied::TooManyLots),
            };
        }
        Answered {
            board: Board::empty(n).with_list(ours).with_list(theirs),
            told: Ok(Told::Loaded),
        }
    }

    // Whether a place is the party's: the first `ours` places are ours.
    fn is_own(&self, party: Party, place: usize) -> bool
        ensures { result ≡ owns self.now.ours party place }
    {
        match party {
            Party::Ours => place < self.ours,
            Party::Partner => self.ours <= place,
        }
    }

    // Whether there is a lot of the party's at a place.
    fn has_lot(&self, party: Party, place: usize) -> bool
        ensures { result ≡ reaches (owns self.now.ours) (table_of self.now) party place }
    {
        self.is_own(party, place) && place < self.count.min(MOST_LOTS)
    }

    // The lot at a place of the party's.
    fn lot(&self, party: Party, place: usize) -> Result<Lot, Denied>
        ensures { result ≡ found (owns self.now.ours) (table_of self.now) party place }
    {
        if self.has_lot(party, place) {
            Ok(self.lots[place])
        } else {
            Err(Denied::NoSuchPlace)
        }
    }

    // Stores a job at a place of the party's, or leaves the board as it is.
    #[tactic(auto, using(crate::specs::SharingLaws::with_own))]
    fn store(&mut self, party: Party, place: usize, stamp: u16, job: u32) -> Result<Told, Denied>
        ensures told { result ≡ (handed self.old (assigns party place stamp job)).told }
        ensures board { self.new ≡ (handed self.old (assigns party place stamp job)).board }
    {
        let lot = self.lot(party, place)?;
        if stamp != lot.stamp {
            return Err(Denied::StaleStamp(lot.stamp));
        }
        if stamp == LAST_STAMP {
            return Err(Denied::LastStamp);
        }
        self.lots[place] = Lot {
            record: lot.record,
            job,
            stamp: stamp + 1,
        };
        Ok(Told::Stored)
    }

    // Reads the lot at a place of the party's.
    #[tactic(auto, using(crate::specs::SharingLaws::with_own))]
    pub fn read(self, party: Party, place: usize) -> Answered
        ensures { result ≡ handed self (reads party place) }
    {
        let told = self.lot(party, place).map(Told::Holds);
        Answered { board: self, told }
    }

    // Stores a job at a place of the party's whose current stamp the caller has seen, and raises the stamp by one.
    pub fn assign(mut self, party: Party, place: usize, stamp: u16, job: u32) -> Answered
        ensures { result ≡ handed self (assigns party place stamp job) }
    {
        let told = self.store(party, place, stamp, job);
        Answered { board: self, told }
    }
}
