// Why a line is passed over.
use std::alloc::AllocError;
use storage::RowFault;
use thiserror::Error;

#[derive(Clone, Copy, Debug, Error)]
pub(crate) enum Flaw {
    // fewer than four words
    #[error("not of the form KEY REGION CENTS SUPPLIER")]
    Words,
    #[error("the key is not six letters or digits")]
    Key,
    #[error("the region is not two capital letters")]
    Region,
    #[error("the amount is not a number of cents of at most twelve digits")]
    Cents,
    #[error("no supplier is named")]
    Supplier,
    #[error("the key is given twice")]
    GivenTwice,
    #[error("{} ({})", .0, .0.number())]
    Row(#[from] RowFault),
    #[error("no memory")]
    Memory(#[from(alloc)] AllocError),
}
