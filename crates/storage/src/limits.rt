// The bounds of rows and of key-row files.
ghost use Rattle.std.specs.Prelude.{◌≡◌, length};
ghost use Rattle.storage.specs.Checks.{first, settled};
ghost use Rattle.storage.specs.Rows.{row_checks, limit_checks};

use crate::faults::RowFault;
use byte_strings::ByteString;

// A row is a specifier of two bytes, a field of at most 32 and a primary key of at most 32.
pub const LONGEST_ROW: usize = 66;

pub const MOST_ROWS: usize = 16_384;

pub type KeyRow = ByteString<LONGEST_ROW>;

// Refuses what no row is: no bytes, or more than the longest row has.
pub fn check_row(row: &[u8]) -> Result<(), RowFault>
    ensures { result ≡ settled (first (row_checks row.now)) }
{
    if !(1..=LONGEST_ROW).contains(&row.len()) {
        return Err(RowFault::IllegalCount);
    }
    Ok(())
}

// Refuses a row limit outside its bounds, or above the number of rows that the memory holds.
pub fn check_row_limit(limit: usize, held: usize) -> Result<(), RowFault>
    ensures { result ≡ settled (first (limit_checks limit held)) }
{
    if !(1..=MOST_ROWS).contains(&limit) || limit > held {
        return Err(RowFault::IllegalCount);
    }
    Ok(())
}
