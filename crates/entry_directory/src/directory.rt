// The entries of packed records, in strictly ascending order of their numbers: looking one up by its record number, and
// entering one.
ghost use Rattle.std.specs.Prelude.{◌≡◌, [], length};
ghost use Rattle.ordered_table.specs.Entries.{entries_after_insert};
ghost use Rattle.ordered_table.specs.Table.{insertion};
ghost use Rattle.entry_directory.specs.Numbers.{by_number, entry_of};

use crate::entry::DirectoryEntry;
use ordered_table::{InsertFault, OrderedTable};

#[derive(Drop)]
pub struct Directory<'a> {
    entries: OrderedTable<'a, DirectoryEntry>,
}

impl<'a> Directory<'a> {
    ghost use Rattle.entry_directory.specs.Entries.{listed, capacity_of};

    // No entry, and room for as many as there are cells.
    pub fn over(cells: &'a mut [DirectoryEntry]) -> Directory<'a>
        ensures listed { listed result ≡ [] }
        ensures room { capacity_of result ≡ length cells.old }
    {
        Directory {
            entries: OrderedTable::new(cells),
        }
    }

    // The entry with that record number, if there is one.
    #[tactic(auto, using(crate::proofs::Lookups::found_by_number))]
    pub fn look_up(&self, number: u32) -> Option<DirectoryEntry>
        ensures { result ≡ entry_of number (listed self.now) }
    {
        // entries compare by their numbers alone
        let probe = DirectoryEntry {
            number,
            start: 0,
            len: 0,
        };
        self.entries.get(&probe).copied()
    }

    // One entry more. Refused where its number is entered, then where no cell is free; the directory then stays.
    pub fn enter(&mut self, entry: DirectoryEntry) -> Result<usize, InsertFault>
        ensures value { result ≡ insertion by_number (capacity_of self.old) (length (listed self.old)) (listed self.old) entry }
        ensures listed { listed self.new ≡ entries_after_insert result (listed self.old) entry }
        ensures room { capacity_of self.new ≡ capacity_of self.old }
    {
        self.entries.insert(entry)
    }
}
