// The contents of a record's fields.
ghost use Rattle.std.specs.Prelude.{◌≡◌, length, ℤ, not};
ghost use Rattle.std.specs.List.{count_by, zip};
ghost use Rattle.arith.specs.Same.{same};
ghost use Rattle.compare.specs.Differences.{contents, of_record};

use records::Record;

// The fields of a record.
pub(crate) const FIELDS: usize = 8;

// The contents of a record's fields, in the order of its bytes.
pub(crate) fn contents_of(r: Record) -> [i64; FIELDS]
    ensures { result ≡ contents r }
{
    [
        r.u.into(),
        r.v.into(),
        r.place.into(),
        r.low.into(),
        r.high.into(),
        r.duv.into(),
        r.steps.into(),
        r.class.into(),
    ]
}

// At how many places the contents of two records differ. The places go by number, since zipped and filtered lists take longer, twice the time where all differ.
fn places_differing(first: &[i64; FIELDS], second: &[i64; FIELDS]) -> usize
    ensures { result ≡ count_by (λ (p : ℤ × ℤ). not (same p.0 p.1)) (zip first.now second.now) }
{
    let mut count = 0;
    for k in 0..FIELDS {
        if first[k] != second[k] {
            count += 1;
        }
    }
    count
}

// How many fields of two records differ.
pub(crate) fn count_fields(r: Record, s: Record) -> usize
    ensures { result ≡ length (of_record 0 r s) }
{
    places_differing(&contents_of(r), &contents_of(s))
}
