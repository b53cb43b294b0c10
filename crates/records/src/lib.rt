// Records of answered readings in a file (document 02, No. 4 and No. 8).
#![tactic(auto)]

mod bytes;
mod columns;
mod fields;
mod files;
mod layout;
mod transfer;

pub use columns::{Columns, ColumnsMut};
pub use fields::{Record, ZERO_RECORD};
pub use files::{Form, check_form, file_record, is_known_length, record_at};
pub use transfer::{check_room, close_file, read_records, store_record, write_records};
