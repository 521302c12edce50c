// The refusals of the files below, each with its number.
ghost use Rattle.std.specs.Prelude.{◌≡◌};
ghost use Rattle.storage.specs.Faults.{primary_number, row_number, absent_number, row_fault};

use ordered_table::InsertFault;
use thiserror::Error;

// No pair has the key.
#[derive(Clone, Copy, PartialEq, Eq, Debug, Error)]
#[error("no pair has the key")]
pub struct Absent;

// Why a primary file refuses.
#[derive(Clone, Copy, PartialEq, Eq, Debug, Error)]
pub enum PrimaryFault {
    #[error("the record is there already")]
    AlreadyExists = 10, // a record has the key
    #[error("the record is not there")]
    NotFound = 11, // no record has the key
    // a length, a key or a stated figure is none for this file
    #[error("the length, the key or a stated figure is illegal")]
    IllegalCount = 21,
    // a stated limit would be passed
    #[error("the primary file is full")]
    FileFull = 45,
}

// Why a key-row file refuses. It is a type of its own, as the rules want each fault told by its layer: `?` carries each
// into its own.
#[derive(Clone, Copy, PartialEq, Eq, Debug, Error)]
pub enum RowFault {
    #[error("the key row is there already")]
    AlreadyExists = 10, // the row is there
    #[error("the key row is not there")]
    NotFound = 11, // the row is not there
    // no row has that length, or no file that limit
    #[error("the length of the key row, or the row limit, is illegal")]
    IllegalCount = 21,
    // the row limit is reached
    #[error("the key-row file is full")]
    FileFull = 45,
}

impl Absent {
    pub fn number(self) -> u16
        ensures { result ≡ absent_number }
    {
        PrimaryFault::NotFound.number()
    }
}

impl PrimaryFault {
    pub fn number(self) -> u16
        ensures { result ≡ primary_number self }
    {
        self as u16 // a primary fault's own
    }
}

impl RowFault {
    pub fn number(self) -> u16
        ensures { result ≡ row_number self }
    {
        self as u16 // a row fault's own
    }
}

// What keeps an entry out of the ordered table keeps a row out of its file.
impl From<InsertFault> for RowFault {
    ghost from_gives = { λ x y. y ≡ row_fault x };

    fn from(fault: InsertFault) -> RowFault {
        match fault {
            InsertFault::Present => RowFault::AlreadyExists,
            InsertFault::Full => RowFault::FileFull,
        }
    }
}
