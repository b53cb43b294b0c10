// The two layouts of a record in a file.
ghost use Rattle.std.specs.Prelude.{◌≡◌, ◌/◌};
ghost use Rattle.records.specs.Files.{most_records};
ghost use Rattle.records.specs.Layout.{length_of, layout_of};

use refusal::Refusal;

// The bytes of a record in an earlier file.
const EARLIER_RECORD_LENGTH: usize = 18;

// The bytes of a record that is written.
pub(crate) const RECORD_LENGTH: usize = 20;

// The most records of an earlier file.
const MOST_EARLIER: usize = 3600;

// The most records of a file that is written.
pub(crate) const MOST_WRITTEN: usize = 3200;

// Duv has two bytes in the records of an earlier file, and four in those that are written.
#[derive(Clone, Copy, PartialEq, Eq, Debug)]
pub(crate) enum Layout {
    Earlier,
    Written,
}

impl Layout {
    // The bytes of a record.
    pub(crate) fn record_length(self) -> usize
        ensures { result ≡ length_of self }
    {
        match self {
            Layout::Earlier => EARLIER_RECORD_LENGTH,
            Layout::Written => RECORD_LENGTH,
        }
    }

    // The most records of a file.
    pub(crate) fn most_records(self) -> usize
        ensures { result ≡ most_records (length_of self) }
    {
        match self {
            Layout::Earlier => MOST_EARLIER,
            Layout::Written => MOST_WRITTEN,
        }
    }

    // How many records are whole in n bytes; each layout has a division of its own, which is faster.
    pub(crate) fn whole_in(self, n: usize) -> usize
        ensures { result ≡ n / length_of self }
    {
        match self {
            Layout::Earlier => n / EARLIER_RECORD_LENGTH,
            Layout::Written => n / RECORD_LENGTH,
        }
    }
}

impl TryFrom<usize> for Layout {
    type Error = Refusal;

    ghost try_from_gives = { λ long layout. layout ≡ layout_of long };

    fn try_from(record_length: usize) -> Result<Layout, Refusal> {
        match record_length {
            EARLIER_RECORD_LENGTH => Ok(Layout::Earlier),
            RECORD_LENGTH => Ok(Layout::Written),
            _ => Err(Refusal::BadRecordLength),
        }
    }
}
