// What stands below the record manager: files that are read in the order of their keys, the primary file that holds
// the records and the key-row file that holds the rows of the alternate keys.
#![tactic(auto)]

mod bounds;
mod checks;
mod faults;
mod found;
mod limits;
mod mark;
mod numbers;
mod present;
mod primary;
mod reading;
mod refused;
mod rows;
mod shape;
mod space;

pub use bounds::{LONGEST_KEY, LONGEST_RECORD, MOST_BYTES, MOST_RECORDS, NUMBER_LEN};
pub use faults::{Absent, PrimaryFault, RowFault};
pub use found::fill_found;
pub use limits::{KeyRow, LONGEST_ROW, MOST_ROWS, check_row, check_row_limit};
pub use mark::PositionMark;
pub use numbers::{number_key, record_number};
pub use present::{is_present, reaches};
pub use primary::PrimaryFile;
pub use reading::OrderedReading;
pub use refused::Refused;
pub use rows::KeyRowFile;
pub use shape::{FileKind, PrimaryShape};
pub use space::RowSpace;
