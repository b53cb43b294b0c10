// A list of records to a file, and back; and a file that is written record by record.
ghost use Rattle.std.specs.Prelude.{◌≡◌, ◌*◌, ◌≤◌, length};
ghost use Rattle.std.proofs.lemmas.List.Edits.{sets};
ghost use Rattle.records.specs.Fields.{duv_width, record_length_of};
ghost use Rattle.records.specs.Files.{records_bytes, records_in};
ghost use Rattle.records.specs.FilesLaws.{AllNarrow};
ghost use Rattle.records.specs.Columns.{size_of, rows, list_of, filled};
ghost use Rattle.records.specs.Slices.{held, held_mut, SameSlices};
ghost use Rattle.records.specs.Transfer.{write_outcome, has_record_room, stored_into, closed_into, written, read_outcome, read_into};
ghost use Rattle.records.specs.Layout.{width_of, length_of};
ghost use Rattle.records.specs.RoundTrips.{ReadsBack, FileOfRecords};

use crate::columns::{Columns, ColumnsMut};
use crate::fields::{Record, put_record, record_from};
use crate::files::{TRAILER_LENGTH, check_form, put_trailer};
use crate::layout::{Layout, MOST_WRITTEN, RECORD_LENGTH};
use refusal::Refusal;

// What the writing of n records into so much room comes to.
#[tactic(auto, unfolding(crate::specs::Transfer::write_outcome))]
pub fn check_room(n: usize, room: usize) -> Result<usize, Refusal>
    ensures { result ≡ write_outcome n room }
{
    if MOST_WRITTEN < n {
        return Err(Refusal::TooManyRecords);
    }
    let size = RECORD_LENGTH * n + TRAILER_LENGTH;
    if room < size {
        return Err(Refusal::NoRoom);
    }
    Ok(size)
}

// Writes record i of a file, from 0, at its place; answers whether the target has room for it, and writes nothing where it has none.
pub fn store_record(r: Record, i: usize, file: &mut [u8]) -> bool
    ensures room { result ≡ has_record_room i file.old }
    ensures target { file.new ≡ stored_into i r file.old }
{
    if i < file.len() / RECORD_LENGTH {
        put_record(r, file, RECORD_LENGTH * i);
        return true;
    }
    false
}

// Writes the trailer after the first n records of a file.
pub fn close_file(n: usize, file: &mut [u8]) -> Result<usize, Refusal>
    ensures outcome { result ≡ write_outcome n (length file.old) }
    ensures target { file.new ≡ closed_into result n file.old }
{
    let end = check_room(n, file.len())?;
    put_trailer(n, file, RECORD_LENGTH * n);
    Ok(end)
}

// The records in the first n rows, from the first byte on.
fn put_rows(columns: Columns, n: usize, out: &mut [u8])
    requires { (n ≤ size_of (held columns)) × (record_length_of duv_width * n ≤ length out.old) }
    ensures bytes { out.new ≡ sets out.old 0 (records_bytes duv_width (rows (held columns.entry) n)) }
    ensures narrow { AllNarrow duv_width (rows (held columns.entry) n) }
{
    for i in 0..n {
        put_record(columns.row(i), out, RECORD_LENGTH * i);
    }
}

// Writes the file of a list of records.
pub fn write_records(columns: Columns, file: &mut [u8]) -> Result<usize, Refusal>
    ensures outcome { result ≡ write_outcome (size_of (held columns.entry)) (length file.old) }
    ensures target { file.new ≡ written result (list_of (held columns.entry)) file.old }
    ensures unchanged { held columns.exit ≡ held columns.entry }
    ensures back { ReadsBack result (list_of (held columns.entry)) }
{
    let n = columns.len();
    check_room(n, file.len())?;
    put_rows(columns, n, file);
    close_file(n, file)
}

// The first n records of the file, which have this layout, into the first rows.
fn fill_rows(file: &[u8], layout: Layout, n: usize, columns: &mut ColumnsMut)
    requires { (n ≤ size_of (held_mut columns.old)) × (length_of layout * n ≤ length file.now) }
    ensures target { held_mut columns.new ≡ filled (records_in (width_of layout) n file.now) (held_mut columns.old) }
    ensures same { SameSlices columns.new columns.old }
{
    let record_length = layout.record_length();
    for i in 0..n {
        columns.store(i, record_from(file, layout, record_length * i));
    }
}

// Reads the records of a file into the columns.
pub fn read_records(file: &[u8], columns: &mut ColumnsMut) -> Result<usize, Refusal>
    ensures outcome { result ≡ read_outcome file.now (size_of (held_mut columns.old)) }
    ensures target { held_mut columns.new ≡ read_into result file.now (held_mut columns.old) }
    ensures same { SameSlices columns.new columns.old }
    ensures unchanged { file.exit.now ≡ file.entry.now }
    ensures again { FileOfRecords result file.now }
{
    let form = check_form(file)?;
    let layout = Layout::try_from(form.record_length)?;
    if columns.len() < form.count {
        return Err(Refusal::NoRoom);
    }
    fill_rows(file, layout, form.count, columns);
    Ok(form.count)
}
