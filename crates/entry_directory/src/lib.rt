// The directory of packed records: where each record's bytes stand, by record number, in the ordered table.
#![tactic(auto)]

mod directory;
mod entry;

pub use directory::Directory;
pub use entry::DirectoryEntry;
