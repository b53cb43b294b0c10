// Files whose form can be read.
ghost use Rattle.std.specs.Prelude.{◌≡◌, ◌≤◌, length, get_or, Ok, Err, MatchResult};
ghost use Rattle.records.specs.Files.{most_read, zero_record, form_of, records_of};

use records::{Form, Record};
use refusal::Refusal;

// A file and the form that its bytes have.
#[derive(Clone, Copy)]
pub(crate) struct ReadableFile<'a> {
    pub(crate) bytes: &'a [u8],
    pub(crate) form: Form,
    ghost read: { form_of bytes.now ≡ Ok form },
}

impl<'a> ReadableFile<'a> {
    // The file of these bytes, where it can be read.
    pub(crate) fn open(bytes: &'a [u8]) -> Result<ReadableFile<'a>, Refusal>
        ensures { MatchResult result (λ file. file.bytes.now ≡ bytes.now) (λ refusal. form_of bytes.now ≡ Err refusal) }
    {
        let form = records::check_form(bytes)?;
        Ok(ReadableFile { bytes, form })
    }

    // How many records the file has.
    pub(crate) fn count(self) -> usize
        ensures count { result ≡ length (records_of self.entry.bytes.now) }
        ensures few { result ≤ most_read }
    {
        self.form.count
    }

    // Record i of the file, from 0; zeros beyond the last.
    pub(crate) fn record(self, i: usize) -> Record
        ensures { result ≡ get_or (records_of self.entry.bytes.now) i zero_record }
    {
        records::record_at(self.bytes, self.form.record_length, i)
    }
}
