// The bounds of a primary file's shape.
ghost use Rattle.std.specs.Prelude.{◌≡◌};
ghost use Rattle.storage.specs.Checks.{first, settled};
ghost use Rattle.storage.specs.Shapes.{shape_checks, wrong_key_length};

use crate::faults::PrimaryFault;
use crate::shape::{FileKind, PrimaryShape};

// A record number is a key of four bytes.
pub const NUMBER_LEN: usize = 4;

pub const LONGEST_KEY: usize = 32;

pub const LONGEST_RECORD: usize = 255;

pub const MOST_RECORDS: usize = 4_096;

// Those of 4,096 records of 255 bytes.
pub const MOST_BYTES: usize = 1_044_480;

impl PrimaryShape {
    // Refuses a shape of which a figure is outside its bounds.
    pub fn check(self) -> Result<(), PrimaryFault>
        ensures { result ≡ settled (first (shape_checks self)) }
    {
        if self.kind.is_wrong_key_length(self.key_len)
            || !(1..=LONGEST_RECORD).contains(&self.max_record_len)
            || !(1..=MOST_RECORDS).contains(&self.record_limit)
            || !(1..=MOST_BYTES).contains(&self.byte_limit)
        {
            return Err(PrimaryFault::IllegalCount);
        }
        Ok(())
    }
}

impl FileKind {
    fn is_wrong_key_length(self, key_len: usize) -> bool
        ensures { result ≡ wrong_key_length self key_len }
    {
        match self {
            FileKind::Relative | FileKind::EntrySequenced => key_len != NUMBER_LEN,
            FileKind::KeySequenced => !(1..=LONGEST_KEY).contains(&key_len),
        }
    }
}
