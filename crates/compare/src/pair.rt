// The differences of two files that can be read.
ghost use Rattle.std.specs.Prelude.{◌≡◌, ◌+◌, ◌-◌, ◌*◌, ◌≤◌, leb, length, min};
ghost use Rattle.compare.specs.Differences.{in_step, of_record};
ghost use Rattle.records.specs.Files.{most_read, records_of};
ghost use Rattle.compare.specs.Comparison.{file_differences, entry_length, compare_outcome, listed_into};
ghost use Rattle.compare.specs.Code.Puts.{Put};

use crate::NotCompared;
use crate::contents::{FIELDS, count_fields};
use crate::entries::{ENTRY_LENGTH, Entries};
use crate::readable::ReadableFile;

// The field number of a record that only the first file has.
const ONLY_FIRST: usize = 8;

// The field number of a record that only the second file has.
const ONLY_SECOND: usize = 9;

// The two files of a comparison.
#[derive(Clone, Copy)]
pub(crate) struct Pair<'a> {
    pub(crate) first: ReadableFile<'a>,
    pub(crate) second: ReadableFile<'a>,
}

impl<'a> Pair<'a> {
    // How many records both files have.
    fn both(self) -> usize
        ensures both { result ≡ min (length (records_of self.entry.first.bytes.now)) (length (records_of self.entry.second.bytes.now)) }
        ensures few { result ≤ most_read }
    {
        self.first.count().min(self.second.count())
    }

    // How many fields differ in the records that both files have.
    fn count_differing(self) -> usize
        ensures { result ≡ length (in_step of_record 0 (records_of self.entry.first.bytes.now) (records_of self.entry.second.bytes.now)) }
    {
        let mut count = 0;
        for i in 0..self.both() {
            count += count_fields(self.first.record(i), self.second.record(i));
        }
        count
    }

    // Whether so many numbers are room for the differences.
    fn has_room(self, room: usize) -> bool
        ensures { result ≡ leb (entry_length * length (file_differences self.entry.first.bytes.now self.entry.second.bytes.now)) room }
    {
        let both = self.both();
        let others = (self.first.count() - both) + (self.second.count() - both);
        // Where all that could differ has room, nothing is counted.
        if ENTRY_LENGTH * (FIELDS * both + others) <= room {
            return true;
        }
        ENTRY_LENGTH * (self.count_differing() + others) <= room
    }

    // Writes the entries of the fields that differ in the records that both files have.
    fn put_both(self, entries: &mut Entries)
        requires { entries.old.end + entry_length * length (in_step of_record 0 (records_of self.first.bytes.now) (records_of self.second.bytes.now)) ≤ length entries.old.target.now }
        ensures put { Put entries.old.target.now entries.new.target.now entries.old.end entries.new.end (in_step of_record 0 (records_of self.entry.first.bytes.now) (records_of self.entry.second.bytes.now)) }
        ensures same { entries.new.target.ghost_name ≡ entries.old.target.ghost_name }
    {
        for i in 0..self.both() {
            entries.put_fields(i, self.first.record(i), self.second.record(i));
        }
    }

    // Writes the differences.
    fn put(self, entries: &mut Entries)
        requires { entries.old.end + entry_length * length (file_differences self.first.bytes.now self.second.bytes.now) ≤ length entries.old.target.now }
        ensures put { Put entries.old.target.now entries.new.target.now entries.old.end entries.new.end (file_differences self.entry.first.bytes.now self.entry.second.bytes.now) }
        ensures same { entries.new.target.ghost_name ≡ entries.old.target.ghost_name }
    {
        let m = self.first.count();
        let n = self.second.count();
        self.put_both(entries);
        entries.put_extra(ONLY_FIRST, n, m);
        entries.put_extra(ONLY_SECOND, m, n);
    }

    // Lists the differences, from the target's start on; answers how many there are.
    #[tactic(auto, unfolding(crate::specs::Comparison::compare_outcome))]
    pub(crate) fn list(self, target: &mut [i64]) -> Result<usize, NotCompared>
        ensures outcome { result ≡ compare_outcome self.entry.first.bytes.now self.entry.second.bytes.now (length target.old) }
        ensures target { target.new ≡ listed_into result self.entry.first.bytes.now self.entry.second.bytes.now target.old }
    {
        if !self.has_room(target.len()) {
            return Err(NotCompared::NoRoom);
        }
        let mut entries = Entries::new(target);
        self.put(&mut entries);
        Ok(entries.count())
    }
}
