// Why a call is refused: a number, the layer that it belongs to and a key.
ghost use Rattle.std.specs.Prelude.{◌≡◌};
ghost use Rattle.file_rules.specs.Faults.{number_of, layer_of, key_of};
ghost use Rattle.file_rules.specs.declared.fault.CallFault.TheVariants.{IllegalCount as illegal_count, Primary as primary_fault, Rows as row_fault};
ghost use Rattle.storage.specs.declared.faults.PrimaryFault.TheVariants.{NotFound as not_found};

use crate::modes::UnknownCode;
use storage::{Absent, PrimaryFault, RowFault};

// The faults of the call itself by the manual's names, and those of the files below carried whole.
#[derive(Clone, Copy, PartialEq, Eq, Debug)]
pub enum CallFault {
    // nothing is left in the subset
    EndOfFile,
    // the access right is missing
    NotAllowed,
    // the number is open, or an open excludes the new one
    FileInUse,
    // the file number is out of range or not open
    NotOpen,
    // a length, count, code or stated figure is out of range
    IllegalCount,
    // a buffer is too short
    BufferBounds,
    // all 32 record locks are taken
    NoLockSpace,
    // an unknown path, no current key, or a changed key
    InvalidKey,
    // another's lock stands in the way
    Locked,
    // the primary file refuses
    Primary(PrimaryFault),
    // the key-row file refuses
    Rows(RowFault),
    // a unique value of this path would stand in two records
    UniqueClash(u8),
}

impl CallFault {
    // Variants that carry a fault have no number of their own, so it is not their discriminant.
    pub fn number(self) -> u16
        ensures { result ≡ number_of self }
    {
        match self {
            CallFault::EndOfFile => 1,
            CallFault::NotAllowed => 2,
            CallFault::FileInUse => 12,
            CallFault::NotOpen => 16,
            CallFault::IllegalCount => 21,
            CallFault::BufferBounds => 22,
            CallFault::NoLockSpace => 31,
            CallFault::InvalidKey => 46,
            CallFault::Locked => 73,
            CallFault::Primary(below) => below.number(),
            CallFault::Rows(below) => below.number(),
            CallFault::UniqueClash(_) => RowFault::AlreadyExists.number(),
        }
    }

    // 1 is the call, 2 the primary file, 3 the key rows: an enum of these would only repeat what the variants say.
    pub fn layer(self) -> u8
        ensures { result ≡ layer_of self }
    {
        match self {
            CallFault::Primary(_) => 2,
            CallFault::Rows(_) | CallFault::UniqueClash(_) => 3,
            _ => 1,
        }
    }

    // The path whose unique value clashes, and 0 for every other fault: an answer has a number here in any case.
    pub fn key(self) -> u8
        ensures { result ≡ key_of self }
    {
        match self {
            CallFault::UniqueClash(path) => path,
            _ => 0,
        }
    }
}

// The faults below come in by a `From` each, written out: a derived one does not promise which variant it makes.
impl From<PrimaryFault> for CallFault {
    ghost from_gives = { λ x y. y ≡ primary_fault x };

    fn from(fault: PrimaryFault) -> Self {
        Self::Primary(fault)
    }
}

impl From<RowFault> for CallFault {
    ghost from_gives = { λ x y. y ≡ row_fault x };

    fn from(fault: RowFault) -> Self {
        Self::Rows(fault)
    }
}

// Nothing under a key of the primary file.
impl From<Absent> for CallFault {
    ghost from_gives = { λ _ y. y ≡ primary_fault not_found };

    fn from(_fault: Absent) -> Self {
        Self::Primary(PrimaryFault::NotFound)
    }
}

// A code that names no mode is out of range.
impl From<UnknownCode> for CallFault {
    ghost from_gives = { λ _ y. y ≡ illegal_count };

    fn from(_code: UnknownCode) -> Self {
        Self::IllegalCount
    }
}
