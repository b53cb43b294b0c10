// The salvage of records through the C ABI.
ghost use Rattle.std.specs.Prelude.{◌≡◌, length};
ghost use Rattle.salvage.specs.Salvaging.{salvage_outcome, file_into, dropped_into};
ghost use Rattle.salvage.specs.Rules.{KeptBack};
ghost use Rattle.cct_c.specs.PlainSalvage.{plain_salvaged};

use refusal::Refusal;
use salvage::Salvaged;

// What a salvage came to: how many records are kept, how many are dropped and how many bytes are left over; or the number of the
// refusal, and counts of 0.
#[repr(C)]
#[derive(Clone, Copy)]
pub struct PlainSalvaged {
    pub kept: usize,
    pub dropped: usize,
    pub leftover: usize,
    pub refusal: u8,
}

impl From<Result<Salvaged, Refusal>> for PlainSalvaged {
    ghost from_gives = { λ s p. p ≡ plain_salvaged s };

    fn from(salvaged: Result<Salvaged, Refusal>) -> PlainSalvaged {
        match salvaged {
            Ok(counts) => PlainSalvaged {
                kept: counts.kept,
                dropped: counts.dropped,
                leftover: counts.leftover,
                refusal: 0,
            },
            Err(refusal) => PlainSalvaged {
                kept: 0,
                dropped: 0,
                leftover: 0,
                refusal: refusal.into(),
            },
        }
    }
}

// Writes the file of the records that match and the list of the numbers of the others.
#[unsafe(no_mangle)]
pub extern "C" fn ck_salvage(
    bytes: &[u8],
    record_length: usize,
    edges: &[u32],
    file: &mut [u8],
    dropped: &mut [u64],
) -> PlainSalvaged
    ensures outcome { result ≡ plain_salvaged (salvage_outcome edges.now record_length bytes.now (length file.old) (length dropped.old)) }
    ensures file { file.new ≡ file_into (salvage_outcome edges.now record_length bytes.now (length file.old) (length dropped.old)) edges.now record_length bytes.now file.old }
    ensures list { dropped.new ≡ dropped_into (salvage_outcome edges.now record_length bytes.now (length file.old) (length dropped.old)) edges.now record_length bytes.now dropped.old }
    ensures unchanged { (bytes.exit.now ≡ bytes.entry.now) × (edges.exit.now ≡ edges.entry.now) }
    ensures back { KeptBack (salvage_outcome edges.now record_length bytes.now (length file.old) (length dropped.old)) edges.now record_length bytes.now }
{
    salvage::salvage(bytes, record_length, edges, file, dropped).into()
}
