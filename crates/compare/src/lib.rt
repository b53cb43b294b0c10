// The differences of two record files (document 02, No. 7 and No. 8).
#![tactic(auto)]

mod contents;
mod entries;
mod pair;
mod readable;

ghost use Rattle.std.specs.Prelude.{◌≡◌, length};
ghost use Rattle.compare.specs.Comparison.{compare_outcome, listed_into, refusal_of};

use pair::Pair;
use readable::ReadableFile;
use refusal::Refusal;

// Why two files are not compared.
#[derive(Clone, Copy, PartialEq, Eq, Debug)]
pub enum NotCompared {
    // The first file cannot be read.
    First(Refusal),
    // The first file can be read, and the second cannot.
    Second(Refusal),
    // Both files can be read, and their differences have no room.
    NoRoom,
}

// The refusal that a comparison ends with.
impl From<NotCompared> for Refusal {
    ghost from_gives = { λ e r. r ≡ refusal_of e };

    fn from(error: NotCompared) -> Refusal {
        match error {
            NotCompared::First(refusal) => refusal,
            NotCompared::Second(refusal) => refusal,
            NotCompared::NoRoom => Refusal::NoRoom,
        }
    }
}

// Lists the differences of two files, four numbers to each, from the target's start on; answers how many there are.
#[tactic(auto, unfolding(crate::specs::Comparison::compare_outcome))]
pub fn compare_files(first: &[u8], second: &[u8], target: &mut [i64]) -> Result<usize, NotCompared>
    ensures outcome { result ≡ compare_outcome first.now second.now (length target.old) }
    ensures target { target.new ≡ listed_into result first.now second.now target.old }
    ensures unchanged { (first.exit.now ≡ first.entry.now) × (second.exit.now ≡ second.entry.now) }
{
    let first = ReadableFile::open(first).map_err(NotCompared::First)?;
    let second = ReadableFile::open(second).map_err(NotCompared::Second)?;
    Pair { first, second }.list(target)
}
