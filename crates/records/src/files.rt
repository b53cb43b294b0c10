// The form of a file, and the records in it.
ghost use Rattle.std.specs.Prelude.{◌≡◌, ◌+◌, ◌≤◌, length, get_or};
ghost use Rattle.std.proofs.lemmas.List.Edits.{sets};
ghost use Rattle.records.specs.Fields.{duv_width};
ghost use Rattle.records.specs.Files.{known_length, most_written, trailer_length, trailer_bytes, zero_record, record_at, trailer_form, form_of, records_of};

use crate::bytes::{bytes_at, put};
use crate::fields::{Record, ZERO_RECORD, record_from};
use crate::layout::{Layout, RECORD_LENGTH};
use refusal::Refusal;

// The bytes of a trailer.
pub(crate) const TRAILER_LENGTH: usize = 8;

// What the form of a file says: how long its records are, and how many it has.
#[derive(Clone, Copy, PartialEq, Eq, Debug)]
pub struct Form {
    pub record_length: usize,
    pub count: usize,
}

// The trailer of n records, from a place of the buffer on.
pub(crate) fn put_trailer(n: usize, out: &mut [u8], at: usize)
    requires { (n ≤ most_written) × (at + trailer_length ≤ length out.old) }
    ensures { out.new ≡ sets out.old at (trailer_bytes duv_width n) }
{
    put((RECORD_LENGTH as u16).to_le_bytes(), out, at);
    put((n as u16).to_le_bytes(), out, at + 2);
    put(((RECORD_LENGTH * n) as u32).to_le_bytes(), out, at + 4);
}

// Whether records of this length are read.
pub fn is_known_length(record_length: usize) -> bool
    ensures { result ≡ known_length record_length }
{
    Layout::try_from(record_length).is_ok()
}

// The form of a file of n bytes by the numbers of its trailer.
fn trailer_form(record_length: u16, count: u16, back: u32, n: usize) -> Result<Form, Refusal>
    ensures { result ≡ trailer_form record_length count back n }
{
    let record_length = usize::from(record_length);
    let count = usize::from(count);
    let distance = back as usize;
    let layout = Layout::try_from(record_length)?;
    if distance != record_length * count || n != distance + TRAILER_LENGTH {
        return Err(Refusal::BadTrailer);
    }
    if layout.most_records() < count {
        return Err(Refusal::TooManyRecords);
    }
    Ok(Form {
        record_length,
        count,
    })
}

// The form of a file, or why it cannot be read.
#[tactic(auto, unfolding(crate::specs::Files::form_of))]
pub fn check_form(file: &[u8]) -> Result<Form, Refusal>
    ensures form { result ≡ form_of file.now }
    ensures unchanged { file.exit.now ≡ file.entry.now }
{
    let n = file.len();
    if n < TRAILER_LENGTH {
        return Err(Refusal::NoTrailer);
    }
    let trailer = n - TRAILER_LENGTH;
    let record_length = u16::from_le_bytes(bytes_at(file, trailer));
    let count = u16::from_le_bytes(bytes_at(file, trailer + 2));
    let back = u32::from_le_bytes(bytes_at(file, trailer + 4));
    trailer_form(record_length, count, back, n)
}

// Record i of the bytes, from 0, for records of this length; zeros for another length than is read, and where the bytes end before
// the record is whole.
pub fn record_at(bytes: &[u8], record_length: usize, i: usize) -> Record
    ensures record { result ≡ record_at record_length bytes.now i }
    ensures unchanged { bytes.exit.now ≡ bytes.entry.now }
{
    let n = bytes.len();
    match Layout::try_from(record_length) {
        Ok(layout) if i < layout.whole_in(n) => record_from(bytes, layout, record_length * i),
        _ => ZERO_RECORD,
    }
}

// Record i of a file, from 0; zeros where the file cannot be read or has no record i.
pub fn file_record(file: &[u8], i: usize) -> Record
    ensures record { result ≡ get_or (records_of file.now) i zero_record }
    ensures unchanged { file.exit.now ≡ file.entry.now }
{
    match check_form(file) {
        Ok(form) => record_at(file, form.record_length, i),
        Err(_) => ZERO_RECORD,
    }
}
