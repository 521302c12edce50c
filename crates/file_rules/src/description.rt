// How a file is described, for life.
ghost use Rattle.std.specs.Prelude.{◌≡◌};
ghost use Rattle.file_rules.specs.Descriptions.{kind_of, key_length};

use storage::{FileKind, NUMBER_LEN};

// The two bytes that name an alternate key.
pub type KeySpecifier = [u8; 2];

// Bytes at a fixed place in a record.
#[derive(Clone, Copy, PartialEq, Eq, Debug)]
pub struct KeyField {
    pub offset: usize,
    pub len: usize,
}

// A field that gives a further path to the records.
#[derive(Clone, Copy, PartialEq, Eq, Debug)]
pub struct AlternateKey {
    pub specifier: KeySpecifier,
    pub field: KeyField,
    // no value stands in two records
    pub unique: bool,
    // a field made of this byte alone has no value
    pub null_byte: Option<u8>,
}

// What a file goes by. The key is a field of the record in a key-sequenced file alone; elsewhere it is the record
// number in four bytes.
#[derive(Clone, Copy, PartialEq, Eq, Debug)]
pub enum Organization {
    Relative,
    EntrySequenced,
    KeySequenced(KeyField),
}

#[derive(Clone, Copy, PartialEq, Eq, Debug)]
pub struct FileDescription<'a> {
    pub organization: Organization,
    pub max_record_len: usize,
    // the first is path 1
    pub alternate_keys: &'a [AlternateKey],
    pub record_limit: usize,
    pub byte_limit: usize,
    pub row_limit: usize,
}

impl Organization {
    pub fn kind(self) -> FileKind
        ensures { result ≡ kind_of self }
    {
        match self {
            Organization::Relative => FileKind::Relative,
            Organization::EntrySequenced => FileKind::EntrySequenced,
            Organization::KeySequenced(_) => FileKind::KeySequenced,
        }
    }

    // The length of a primary key.
    pub fn key_len(self) -> usize
        ensures { result ≡ key_length self }
    {
        match self {
            Organization::Relative | Organization::EntrySequenced => NUMBER_LEN,
            Organization::KeySequenced(field) => field.len,
        }
    }
}
