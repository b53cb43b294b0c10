// The comparison of two record files through the C ABI.
ghost use Rattle.std.specs.Prelude.{◌≡◌, length};
ghost use Rattle.compare.specs.Comparison.{compare_outcome, listed_into};
ghost use Rattle.cct_c.specs.PlainComparison.{file_of, plain_compared};

use compare::NotCompared;
use refusal::Refusal;

// What a comparison came to: how many differences are listed, or a count of 0, the number of the refusal, and the file that is
// refused, 1 or 2; 0 where it is neither.
#[repr(C)]
#[derive(Clone, Copy)]
pub struct PlainCompared {
    pub count: usize,
    pub refusal: u8,
    pub file: u8,
}

// Which file is refused: 1 or 2, or 0 where it is neither.
fn file_of(error: NotCompared) -> u8
    ensures { result ≡ file_of error }
{
    match error {
        NotCompared::First(_) => 1,
        NotCompared::Second(_) => 2,
        NotCompared::NoRoom => 0,
    }
}

impl From<Result<usize, NotCompared>> for PlainCompared {
    ghost from_gives = { λ c p. p ≡ plain_compared c };

    fn from(compared: Result<usize, NotCompared>) -> PlainCompared {
        match compared {
            Ok(n) => PlainCompared {
                count: n,
                refusal: 0,
                file: 0,
            },
            Err(error) => PlainCompared {
                count: 0,
                refusal: Refusal::from(error).into(),
                file: file_of(error),
            },
        }
    }
}

// Lists the differences of two files.
#[unsafe(no_mangle)]
pub extern "C" fn ck_compare_files(first: &[u8], second: &[u8], target: &mut [i64]) -> PlainCompared
    ensures outcome { result ≡ plain_compared (compare_outcome first.now second.now (length target.old)) }
    ensures target { target.new ≡ listed_into (compare_outcome first.now second.now (length target.old)) first.now second.now target.old }
    ensures unchanged { (first.exit.now ≡ first.entry.now) × (second.exit.now ≡ second.entry.now) }
{
    compare::compare_files(first, second, target).into()
}
