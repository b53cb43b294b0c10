// The records of a file that was left without its trailer (document 02, No. 9).
#![tactic(auto)]

mod body;
mod matching;
mod targets;

ghost use Rattle.std.specs.Prelude.{◌≡◌, length};
ghost use Rattle.salvage.specs.Salvaging.{salvage_outcome, file_into, dropped_into};
ghost use Rattle.salvage.specs.Rules.{KeptBack};

use body::Body;
use refusal::Refusal;

// How many records are kept, how many are dropped, and how many bytes are left over.
#[derive(Clone, Copy, PartialEq, Eq, Debug)]
pub struct Salvaged {
    pub kept: usize,
    pub dropped: usize,
    pub leftover: usize,
}

// Writes the file of the records in the bytes, of this length and from the first byte on, that are what the search answers to their u
// and v at their own step count, and lists the numbers of the others.
#[tactic(auto, unfolding(crate::specs::Salvaging::salvage_outcome))]
pub fn salvage(
    bytes: &[u8],
    record_length: usize,
    edges: &[u32],
    file: &mut [u8],
    dropped: &mut [u64],
) -> Result<Salvaged, Refusal>
    ensures outcome { result ≡ salvage_outcome edges.now record_length bytes.now (length file.old) (length dropped.old) }
    ensures file { file.new ≡ file_into result edges.now record_length bytes.now file.old }
    ensures list { dropped.new ≡ dropped_into result edges.now record_length bytes.now dropped.old }
    ensures unchanged { (bytes.exit.now ≡ bytes.entry.now) × (edges.exit.now ≡ edges.entry.now) }
    ensures back { KeptBack result edges.now record_length bytes.now }
{
    if !classes::edges_valid(edges) {
        return Err(Refusal::BadEdges);
    }
    if !records::is_known_length(record_length) {
        return Err(Refusal::BadRecordLength);
    }
    let body = Body {
        bytes,
        record_length,
        edges,
    };
    body.write(file, dropped)
}
