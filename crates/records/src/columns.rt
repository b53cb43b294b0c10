// The rows of eight columns, one for each field of a record.
ghost use Rattle.std.specs.Prelude.{◌≡◌, get_or};
ghost use Rattle.records.specs.Columns.{size_of, row_at, list_of};
ghost use Rattle.records.specs.Slices.{held, held_mut, SameSlices};
ghost use Rattle.records.specs.Files.{zero_record};
ghost use Rattle.records.specs.Code.Rows.{HasRow, stored};

use crate::fields::{Record, ZERO_RECORD};

// A list of records, read from eight columns; it is as long as the shortest.
#[derive(Clone, Copy)]
pub struct Columns<'a> {
    pub u: &'a [u32],
    pub v: &'a [u32],
    pub place: &'a [u16],
    pub low: &'a [u16],
    pub high: &'a [u16],
    pub duv: &'a [i32],
    pub steps: &'a [u8],
    pub class: &'a [u8],
}

impl Columns<'_> {
    // How long the list is.
    #[tactic(auto, unfolding(crate::specs::Columns::size_of))]
    pub fn len(self) -> usize
        ensures length { result ≡ size_of (held self.entry) }
        ensures unchanged { held self.exit ≡ held self.entry }
    {
        let last = self.steps.len().min(self.class.len());
        let last = self.high.len().min(self.duv.len().min(last));
        let last = self.place.len().min(self.low.len().min(last));
        self.u.len().min(self.v.len().min(last))
    }

    // The record in a row.
    pub(crate) fn row(self, i: usize) -> Record
        requires { HasRow (held self) i }
        ensures { result ≡ row_at (held self.entry) i }
    {
        Record {
            u: self.u[i],
            v: self.v[i],
            place: self.place[i],
            low: self.low[i],
            high: self.high[i],
            duv: self.duv[i],
            steps: self.steps[i],
            class: self.class[i],
        }
    }

    // Record i of the list, from 0; zeros beyond the list.
    pub fn record(self, i: usize) -> Record
        ensures record { result ≡ get_or (list_of (held self.entry)) i zero_record }
        ensures unchanged { held self.exit ≡ held self.entry }
    {
        if i < self.len() {
            self.row(i)
        } else {
            ZERO_RECORD
        }
    }
}

// Eight columns that a list of records is read into.
#[derive(Drop)]
pub struct ColumnsMut<'a> {
    pub u: &'a mut [u32],
    pub v: &'a mut [u32],
    pub place: &'a mut [u16],
    pub low: &'a mut [u16],
    pub high: &'a mut [u16],
    pub duv: &'a mut [i32],
    pub steps: &'a mut [u8],
    pub class: &'a mut [u8],
}

impl ColumnsMut<'_> {
    // What they hold, to be read.
    fn shared(&self) -> Columns<'_>
        ensures { held result ≡ held_mut self.now }
    {
        Columns {
            u: self.u,
            v: self.v,
            place: self.place,
            low: self.low,
            high: self.high,
            duv: self.duv,
            steps: self.steps,
            class: self.class,
        }
    }

    // How many records they have room for.
    pub fn len(&self) -> usize
        ensures length { result ≡ size_of (held_mut self.now) }
        ensures unchanged { held_mut self.exit.now ≡ held_mut self.entry.now }
    {
        self.shared().len()
    }

    // A record into a row.
    pub(crate) fn store(&mut self, i: usize, r: Record)
        requires { HasRow (held_mut self.old) i }
        ensures stored { held_mut self.new ≡ stored (held_mut self.old) i r }
        ensures same { SameSlices self.new self.old }
    {
        self.u[i] = r.u;
        self.v[i] = r.v;
        self.place[i] = r.place;
        self.low[i] = r.low;
        self.high[i] = r.high;
        self.duv[i] = r.duv;
        self.steps[i] = r.steps;
        self.class[i] = r.class;
    }
}
