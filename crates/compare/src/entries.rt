// Entries of the list of differences, written into a target.
ghost use Rattle.std.specs.Prelude.{◌≡◌, [], ◌∷◌, ◌+◌, ◌-◌, ◌*◌, ◌/◌, ◌^◌, ◌≤◌, ◌<◌, length};
ghost use Rattle.compare.specs.Differences.{entry, of_field, of_record, extra};
ghost use Rattle.compare.specs.Comparison.{entry_length};
ghost use Rattle.compare.specs.Code.Puts.{Put};

use crate::contents::{FIELDS, contents_of};
use records::Record;

// The numbers of an entry.
pub(crate) const ENTRY_LENGTH: usize = 4;

// A target, written from its start up to where the next entry goes.
#[derive(Drop)]
pub(crate) struct Entries<'a> {
    pub(crate) target: &'a mut [i64],
    pub(crate) end: usize,
}

impl<'a> Entries<'a> {
    // No entry, in this target.
    pub(crate) fn new(target: &'a mut [i64]) -> Entries<'a>
        ensures end { result.end ≡ 0 }
        ensures target { result.target.now ≡ target.old }
        ensures same { result.target.ghost_name ≡ target.entry.ghost_name }
    {
        Entries { target, end: 0 }
    }

    // How many entries there are.
    pub(crate) fn count(&self) -> usize
        ensures { result ≡ self.now.end / entry_length }
    {
        self.end / ENTRY_LENGTH
    }

    // Writes an entry.
    fn put(&mut self, index: usize, field: usize, first: i64, second: i64)
        requires { (index < 2 ^ 63) × (field < 2 ^ 63) × (self.old.end + entry_length ≤ length self.old.target.now) }
        ensures put { Put self.old.target.now self.new.target.now self.old.end self.new.end (entry index field first second ∷ []) }
        ensures same { self.new.target.ghost_name ≡ self.old.target.ghost_name }
    {
        let at = self.end;
        self.target[at] = index as i64;
        self.target[at + 1] = field as i64;
        self.target[at + 2] = first;
        self.target[at + 3] = second;
        self.end = at + 4;
    }

    // Writes the entry of a field where its contents differ.
    fn put_field(&mut self, index: usize, field: usize, first: i64, second: i64)
        requires { (index < 2 ^ 63) × (field < 2 ^ 63) × (self.old.end + entry_length * length (of_field index field first second) ≤ length self.old.target.now) }
        ensures put { Put self.old.target.now self.new.target.now self.old.end self.new.end (of_field index field first second) }
        ensures same { self.new.target.ghost_name ≡ self.old.target.ghost_name }
    {
        if first != second {
            self.put(index, field, first, second);
        }
    }

    // Writes the entries of the fields in which two records differ.
    pub(crate) fn put_fields(&mut self, index: usize, r: Record, s: Record)
        requires { (index < 2 ^ 63) × (self.old.end + entry_length * length (of_record index r s) ≤ length self.old.target.now) }
        ensures put { Put self.old.target.now self.new.target.now self.old.end self.new.end (of_record index r s) }
        ensures same { self.new.target.ghost_name ≡ self.old.target.ghost_name }
    {
        let first = contents_of(r);
        let second = contents_of(s);
        for k in 0..FIELDS {
            self.put_field(index, k, first[k], second[k]);
        }
    }

    // Writes the entries of the records from one number up to another, which only one file has.
    pub(crate) fn put_extra(&mut self, field: usize, from: usize, to: usize)
        requires { (field < 2 ^ 63) × (to ≤ 2 ^ 63) × (self.old.end + entry_length * (to - from) ≤ length self.old.target.now) }
        ensures put { Put self.old.target.now self.new.target.now self.old.end self.new.end (extra field from (to - from)) }
        ensures same { self.new.target.ghost_name ≡ self.old.target.ghost_name }
    {
        for i in from..to {
            self.put(i, field, 0, 0);
        }
    }
}
