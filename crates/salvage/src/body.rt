// The records that are whole in bytes without a trailer.
ghost use Rattle.std.specs.Prelude.{◌≡◌, ◌*◌, ◌/◌, ◌≤◌, true, length, get_or, IfOk};
ghost use Rattle.classes.specs.Edges.{edges_valid};
ghost use Rattle.records.specs.Fields.{duv_width, record_length_of};
ghost use Rattle.records.specs.Files.{known_length, whole_records, zero_record};
ghost use Rattle.salvage.specs.Salvaging.{kept_in, dropped_in, salvage_outcome, file_into, dropped_into};
ghost use Rattle.salvage.specs.Code.Sorting.{room_for, Sorted};

use crate::Salvaged;
use crate::matching::is_match;
use crate::targets::Targets;
use records::Record;
use refusal::Refusal;

// Whether so many records kept and so many dropped have room.
#[tactic(auto, using(std::proofs::lemmas::Bool::Decides::nat_tests), unfolding(crate::specs::Code::Sorting::room_for, records::specs::Transfer::write_outcome))]
fn check_counts(
    kept: usize,
    dropped: usize,
    file_room: usize,
    list_room: usize,
) -> Result<(), Refusal>
    ensures { result ≡ room_for kept dropped file_room list_room }
{
    records::check_room(kept, file_room)?;
    if list_room < dropped {
        return Err(Refusal::NoRoom);
    }
    Ok(())
}

// Bytes whose records are of a length that is read, and the edges under which they are searched for again.
#[derive(Clone, Copy)]
pub(crate) struct Body<'a> {
    pub(crate) bytes: &'a [u8],
    pub(crate) record_length: usize,
    pub(crate) edges: &'a [u32],
    ghost known: { known_length record_length ≡ true },
    ghost valid: { edges_valid edges.now ≡ true },
}

impl<'a> Body<'a> {
    // How many records are whole in the bytes.
    fn count(self) -> usize
        ensures { result ≡ length (whole_records self.entry.record_length self.entry.bytes.now) }
    {
        self.bytes.len() / self.record_length
    }

    // Record i of them, from 0; zeros beyond the last.
    fn record(self, i: usize) -> Record
        ensures { result ≡ get_or (whole_records self.entry.record_length self.entry.bytes.now) i zero_record }
    {
        records::record_at(self.bytes, self.record_length, i)
    }

    // How many of them match.
    fn count_kept(self) -> usize
        ensures { result ≡ length (kept_in self.entry.edges.now self.entry.record_length self.entry.bytes.now) }
    {
        let mut kept = 0;
        for i in 0..self.count() {
            if is_match(self.record(i), self.edges) {
                kept += 1;
            }
        }
        kept
    }

    // Whether they have room, those that match in the file and the numbers of the others in the list.
    fn check_targets(self, file_room: usize, list_room: usize) -> Result<(), Refusal>
        ensures { result ≡ room_for (length (kept_in self.entry.edges.now self.entry.record_length self.entry.bytes.now)) (length (dropped_in self.entry.edges.now self.entry.record_length self.entry.bytes.now)) file_room list_room }
    {
        let n = self.count();
        // Where all could be kept and all dropped, none has to be looked at.
        if check_counts(n, n, file_room, list_room).is_ok() {
            return Ok(());
        }
        let kept = self.count_kept();
        check_counts(kept, n - kept, file_room, list_room)
    }

    // Writes those that match, and the numbers of the others; answers how many match.
    fn sort(self, file: &mut [u8], dropped: &mut [u64]) -> usize
        requires { (record_length_of duv_width * length (kept_in self.edges.now self.record_length self.bytes.now) ≤ length file.old) × (length (dropped_in self.edges.now self.record_length self.bytes.now) ≤ length dropped.old) }
        ensures { Sorted self.entry.edges.now (whole_records self.entry.record_length self.entry.bytes.now) file.old file.new dropped.old dropped.new result }
    {
        let mut targets = Targets {
            file,
            list: dropped,
            kept: 0,
        };
        for i in 0..self.count() {
            targets.add(self.record(i), i, self.edges);
        }
        targets.kept
    }

    // Writes the file of those that match, and lists the numbers of the others.
    pub(crate) fn write(self, file: &mut [u8], dropped: &mut [u64]) -> Result<Salvaged, Refusal>
        ensures outcome { result ≡ salvage_outcome self.entry.edges.now self.entry.record_length self.entry.bytes.now (length file.old) (length dropped.old) }
        ensures file { file.new ≡ file_into result self.entry.edges.now self.entry.record_length self.entry.bytes.now file.old }
        ensures list { dropped.new ≡ dropped_into result self.entry.edges.now self.entry.record_length self.entry.bytes.now dropped.old }
    {
        self.check_targets(file.len(), dropped.len())?;
        let kept = self.sort(file, dropped);
        // The file has room, so no trailer is refused.
        let _ = records::close_file(kept, file);
        Ok(Salvaged {
            kept,
            dropped: self.count() - kept,
            leftover: self.bytes.len() % self.record_length,
        })
    }
}
