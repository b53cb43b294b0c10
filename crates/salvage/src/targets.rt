// The two targets of a salvage: the file of the records kept, and the list of the numbers of those dropped.
ghost use Rattle.std.specs.Prelude.{◌≡◌, ◌+◌, ◌-◌, ◌≤◌, ◌<◌, length, slice_set};
ghost use Rattle.records.specs.Transfer.{stored_into};
ghost use Rattle.salvage.specs.Code.Sorting.{HasRoom, Adds};

use crate::matching::is_match;
use records::Record;

// The targets, in which so many records are kept.
#[derive(Drop)]
pub(crate) struct Targets<'a> {
    pub(crate) file: &'a mut [u8],
    pub(crate) list: &'a mut [u64],
    pub(crate) kept: usize,
}

impl<'a> Targets<'a> {
    // Writes record i after those kept where it matches, and else its number after those dropped.
    pub(crate) fn add(&mut self, r: Record, i: usize, edges: &[u32])
        requires { HasRoom edges.now r i self.old.kept self.old.file.now self.old.list.now }
        ensures adds { Adds edges.now r i self.old.kept self.old.file.now self.new.file.now self.old.list.now self.new.list.now self.new.kept }
        ensures same { (self.new.file.ghost_name ≡ self.old.file.ghost_name) × (self.new.list.ghost_name ≡ self.old.list.ghost_name) }
    {
        if is_match(r, edges) {
            records::store_record(r, self.kept, self.file);
            self.kept += 1;
        } else {
            self.list[i - self.kept] = i as u64;
        }
    }
}
