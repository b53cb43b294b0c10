// The refusals of document 01, "Numbers given instead of an answer", and of document 02, each under a name.
#![tactic(auto)]

ghost use Rattle.std.specs.Prelude.{◌≡◌};
ghost use Rattle.refusal.specs.Number.{number_of};

#[derive(Clone, Copy, PartialEq, Eq, Debug)]
pub enum Refusal {
    // The list of class edges breaks its rule.
    BadEdges,
    // A float that is infinite or a NaN.
    NotFinite,
    // A number outside its range.
    OutOfRange,
    // Tristimulus values, or sums of spectral samples, whose Y is too small.
    TooDark,
    // The nearest stored entry is farther than the limit.
    TooFar,
    // Past the first entry, at 20,000 K.
    TooHot,
    // Past the last entry, at 1600 K.
    TooCool,
    // A line of text that cannot be read.
    BadLine,
    // Samples and observer tables that are not all equally long, or have no number, or too many.
    BadLengths,
    // A sample or an observer table's number over its limit.
    SampleTooLarge,
    // More records than a file may have.
    TooManyRecords,
    // A target too short for what it is to hold.
    NoRoom,
    // A file that is shorter than a trailer.
    NoTrailer,
    // A file whose trailer has a record length that the reader does not take.
    BadRecordLength,
    // A file whose trailer's distance back is not that of its count, or that is not exactly its records and its trailer.
    BadTrailer,
    // More lots than a board has places.
    TooManyLots,
    // A place that has no lot.
    NoSuchPlace,
    // A stamp that is not the lot's current one.
    StaleStamp,
    // A lot whose stamp cannot be raised.
    LastStamp,
}

impl From<Refusal> for u8 {
    ghost from_gives = { λ r n. n ≡ number_of r };

    fn from(refusal: Refusal) -> u8 {
        match refusal {
            Refusal::BadEdges => 1,
            Refusal::NotFinite => 2,
            Refusal::OutOfRange => 3,
            Refusal::TooDark => 4,
            Refusal::TooFar => 5,
            Refusal::TooHot => 6,
            Refusal::TooCool => 7,
            Refusal::BadLine => 8,
            Refusal::BadLengths => 9,
            Refusal::SampleTooLarge => 10,
            Refusal::TooManyRecords => 11,
            Refusal::NoRoom => 12,
            Refusal::NoTrailer => 13,
            Refusal::BadRecordLength => 14,
            Refusal::BadTrailer => 15,
            Refusal::TooManyLots => 16,
            Refusal::NoSuchPlace => 17,
            Refusal::StaleStamp => 18,
            Refusal::LastStamp => 19,
        }
    }
}
