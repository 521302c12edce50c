// Where a record's bytes stand. Entries are ordered by the record number alone.
#[derive(Clone, Copy)]
#[derive_where(PartialEq, Eq, PartialOrd, Ord)]
pub struct DirectoryEntry {
    pub number: u32,
    #[derive_where(skip)]
    pub start: usize,
    #[derive_where(skip)]
    pub len: usize,
}
