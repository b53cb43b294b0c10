// Record files through the C ABI.
ghost use Rattle.std.specs.Prelude.{◌≡◌, length, get_or};
ghost use Rattle.records.specs.Files.{zero_record, form_of, records_of};
ghost use Rattle.records.specs.Columns.{columns, size_of, list_of};
ghost use Rattle.records.specs.Transfer.{write_outcome, written, read_outcome, read_into};
ghost use Rattle.records.specs.RoundTrips.{ReadsBack, FileOfRecords};
ghost use Rattle.kept.specs.Keeping.{keep};
ghost use Rattle.cct_c.specs.Plain.{plain_outcome, plain_form, plain_kept};

use cct::Answer;
use records::{Columns, ColumnsMut, Form, Record, ZERO_RECORD};
use refusal::Refusal;

// What a function on files did: a count, or the number of the refusal and a count of 0.
#[repr(C)]
#[derive(Clone, Copy)]
pub struct Done {
    pub count: usize,
    pub refusal: u8,
}

impl From<Result<usize, Refusal>> for Done {
    ghost use Rattle.cct_c.specs.Plain.{plain_outcome};

    ghost from_gives = { λ o d. d ≡ plain_outcome o };

    fn from(outcome: Result<usize, Refusal>) -> Done {
        match outcome {
            Ok(count) => Done { count, refusal: 0 },
            Err(refusal) => Done {
                count: 0,
                refusal: u8::from(refusal),
            },
        }
    }
}

impl From<Result<Form, Refusal>> for Done {
    ghost use Rattle.cct_c.specs.Plain.{plain_form};

    ghost from_gives = { λ f d. d ≡ plain_form f };

    fn from(form: Result<Form, Refusal>) -> Done {
        Done::from(form.map(|form| form.count))
    }
}

// The record of an answer, with a 1; or zeros.
#[repr(C)]
#[derive(Clone, Copy)]
pub struct KeptRecord {
    pub fields: Record,
    pub kept: u8,
}

impl From<Option<Record>> for KeptRecord {
    ghost use Rattle.cct_c.specs.Plain.{plain_kept};

    ghost from_gives = { λ r k. k ≡ plain_kept r };

    fn from(kept: Option<Record>) -> KeptRecord {
        match kept {
            Some(fields) => KeptRecord { fields, kept: 1 },
            None => KeptRecord {
                fields: ZERO_RECORD,
                kept: 0,
            },
        }
    }
}

// Writes the file of a list of records.
#[unsafe(no_mangle)]
pub extern "C" fn ck_write_records(
    u: &[u32],
    v: &[u32],
    place: &[u16],
    low: &[u16],
    high: &[u16],
    duv: &[i32],
    steps: &[u8],
    class: &[u8],
    file: &mut [u8],
) -> Done
    ensures outcome { result ≡ plain_outcome (write_outcome (size_of (columns u.now v.now place.now low.now high.now duv.now steps.now class.now)) (length file.old)) }
    ensures target { file.new ≡ written (write_outcome (size_of (columns u.now v.now place.now low.now high.now duv.now steps.now class.now)) (length file.old)) (list_of (columns u.now v.now place.now low.now high.now duv.now steps.now class.now)) file.old }
    ensures unchanged { columns u.exit.now v.exit.now place.exit.now low.exit.now high.exit.now duv.exit.now steps.exit.now class.exit.now ≡ columns u.entry.now v.entry.now place.entry.now low.entry.now high.entry.now duv.entry.now steps.entry.now class.entry.now }
    ensures back { ReadsBack (write_outcome (size_of (columns u.now v.now place.now low.now high.now duv.now steps.now class.now)) (length file.old)) (list_of (columns u.now v.now place.now low.now high.now duv.now steps.now class.now)) }
{
    let columns = Columns {
        u,
        v,
        place,
        low,
        high,
        duv,
        steps,
        class,
    };
    Done::from(records::write_records(columns, file))
}

// Reads the records of a file into the columns.
#[unsafe(no_mangle)]
pub extern "C" fn ck_read_records(
    file: &[u8],
    u: &mut [u32],
    v: &mut [u32],
    place: &mut [u16],
    low: &mut [u16],
    high: &mut [u16],
    duv: &mut [i32],
    steps: &mut [u8],
    class: &mut [u8],
) -> Done
    ensures outcome { result ≡ plain_outcome (read_outcome file.now (size_of (columns u.old v.old place.old low.old high.old duv.old steps.old class.old))) }
    ensures target { columns u.new v.new place.new low.new high.new duv.new steps.new class.new ≡ read_into (read_outcome file.now (size_of (columns u.old v.old place.old low.old high.old duv.old steps.old class.old))) file.now (columns u.old v.old place.old low.old high.old duv.old steps.old class.old) }
    ensures unchanged { file.exit.now ≡ file.entry.now }
    ensures again { FileOfRecords (read_outcome file.now (size_of (columns u.old v.old place.old low.old high.old duv.old steps.old class.old))) file.now }
{
    let mut columns = ColumnsMut {
        u,
        v,
        place,
        low,
        high,
        duv,
        steps,
        class,
    };
    Done::from(records::read_records(file, &mut columns))
}

// The form of a file.
#[unsafe(no_mangle)]
pub extern "C" fn ck_check_file(file: &[u8]) -> Done
    ensures form { result ≡ plain_form (form_of file.now) }
    ensures unchanged { file.exit.now ≡ file.entry.now }
{
    Done::from(records::check_form(file))
}

// Record i of a file, from 0.
#[unsafe(no_mangle)]
pub extern "C" fn ck_record_at(file: &[u8], i: usize) -> Record
    ensures record { result ≡ get_or (records_of file.now) i zero_record }
    ensures unchanged { file.exit.now ≡ file.entry.now }
{
    records::file_record(file, i)
}

// The record of a reading's u and v, in micro, and its answer.
#[unsafe(no_mangle)]
pub extern "C" fn ck_record_of(u: u32, v: u32, answer: Answer) -> KeptRecord
    ensures { result ≡ plain_kept (keep u v answer) }
{
    KeptRecord::from(kept::record_of(u, v, answer))
}
