// What a primary file states for life.
#[derive(Clone, Copy, PartialEq, Eq, Debug)]
pub enum FileKind {
    // records under chosen record numbers
    Relative,
    // records under record numbers that count up from 0
    EntrySequenced,
    // records under a key field of their own
    KeySequenced,
}

#[derive(Clone, Copy, PartialEq, Eq, Debug)]
pub struct PrimaryShape {
    pub kind: FileKind,
    pub key_len: usize,
    pub max_record_len: usize,
    pub record_limit: usize,
    pub byte_limit: usize,
}
