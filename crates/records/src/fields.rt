// A record and its bytes.
ghost use Rattle.std.specs.Prelude.{◌≡◌, ◌+◌, ◌≤◌, length, take, drop};
ghost use Rattle.std.proofs.lemmas.List.Edits.{sets};
ghost use Rattle.records.specs.Bytes.{number, as_signed};
ghost use Rattle.records.specs.Fields.{duv_width, record_length_of, record_bytes, front_record};
ghost use Rattle.records.specs.FieldsLaws.{Narrow};
ghost use Rattle.records.specs.Layout.{width_of, length_of};

use crate::bytes::{bytes_at, put};
use crate::layout::Layout;

// A reading's u and v in micro and its answer; every number is as wide as its field in a file that is written.
#[repr(C)]
#[derive(Clone, Copy, PartialEq, Eq, Debug)]
pub struct Record {
    pub u: u32,
    pub v: u32,
    // The nearest point that the search looked at, and the bracket, in places.
    pub place: u16,
    pub low: u16,
    pub high: u16,
    // Signed distance from the locus, in micro.
    pub duv: i32,
    pub steps: u8,
    // The class from 0, or 255 for none.
    pub class: u8,
}

// A record of zeros.
pub const ZERO_RECORD: Record = Record {
    u: 0,
    v: 0,
    place: 0,
    low: 0,
    high: 0,
    duv: 0,
    steps: 0,
    class: 0,
};

// A record's bytes, from a place of the buffer on.
pub(crate) fn put_record(r: Record, out: &mut [u8], at: usize)
    requires { at + record_length_of duv_width ≤ length out.old }
    ensures bytes { out.new ≡ sets out.old at (record_bytes duv_width r) }
    ensures narrow { Narrow duv_width r }
{
    put(r.u.to_le_bytes(), out, at);
    put(r.v.to_le_bytes(), out, at + 4);
    put(r.place.to_le_bytes(), out, at + 8);
    put(r.low.to_le_bytes(), out, at + 10);
    put(r.high.to_le_bytes(), out, at + 12);
    put(r.duv.to_le_bytes(), out, at + 14);
    put([r.steps, r.class], out, at + 18);
}

// Duv in the bytes from a place on.
fn duv_at(bytes: &[u8], layout: Layout, at: usize) -> i32
    requires { at + width_of layout ≤ length bytes.now }
    ensures { result ≡ as_signed (width_of layout) (number (take (width_of layout) (drop at bytes.now))) }
{
    match layout {
        Layout::Earlier => i32::from(i16::from_le_bytes(bytes_at(bytes, at))),
        Layout::Written => i32::from_le_bytes(bytes_at(bytes, at)),
    }
}

// The record of this layout in the bytes from a place on.
pub(crate) fn record_from(bytes: &[u8], layout: Layout, at: usize) -> Record
    requires { at + length_of layout ≤ length bytes.now }
    ensures { result ≡ front_record (width_of layout) (drop at bytes.now) }
{
    let end = at + layout.record_length();
    Record {
        u: u32::from_le_bytes(bytes_at(bytes, at)),
        v: u32::from_le_bytes(bytes_at(bytes, at + 4)),
        place: u16::from_le_bytes(bytes_at(bytes, at + 8)),
        low: u16::from_le_bytes(bytes_at(bytes, at + 10)),
        high: u16::from_le_bytes(bytes_at(bytes, at + 12)),
        duv: duv_at(bytes, layout, at + 14),
        steps: bytes[end - 2],
        class: bytes[end - 1],
    }
}
