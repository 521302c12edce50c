// A table of entries over cells that a caller lends. The entries stand at the front, strictly ascending; the cells
// behind them are free.
ghost use Rattle.std.specs.Prelude.{◌≡◌, ◌^◌, ◌<◌, ◌≤◌, [], length, take, MatchResult};
ghost use Rattle.std.specs.List.{find};
ghost use Rattle.std.specs.Option.{option_copied};
ghost use Rattle.std.specs.Ordering.{is_eq};
ghost use Rattle.ordered_table.specs.Table.{Ascending, searched, insertion, removal};

use crate::fault::InsertFault;
use crate::{insert, remove, search};

// Lent cells with a count of those in use, and not a `Vec`: no call on a file takes heap.
#[derive(Drop)]
pub struct OrderedTable<'a, E: Ord> {
    cells: &'a mut [E],
    used: usize,
    ghost within: { used ≤ length cells.now },
    // for those who hold a table: their proofs know no width of its private fields
    ghost countable: { used < 2 ^ 64 },
    ghost ascending: { Ascending E.Ord.cmp (take used cells.now) },
}

impl<'a, E: Ord> OrderedTable<'a, E> {
    ghost use Rattle.ordered_table.specs.Entries.{entries, capacity, entries_after_insert, entries_after_remove};

    // No entry, and room for as many as there are cells.
    pub fn new(cells: &'a mut [E]) -> OrderedTable<'a, E>
        ensures entries { entries result ≡ [] }
        ensures capacity { capacity result ≡ length cells.old }
    {
        OrderedTable { cells, used: 0 }
    }

    // How many entries there is room for.
    pub fn capacity(&self) -> usize
        ensures { result ≡ capacity self.now }
    {
        self.cells.len()
    }

    // The entries, in their order.
    pub fn as_slice(&self) -> &[E]
        ensures { result.now ≡ entries self.now }
    {
        &self.cells[..self.used]
    }

    // Where the entry equal to the probe stands, or where one would go in.
    pub fn search(&self, probe: &E) -> Result<usize, usize>
        ensures bound { MatchResult result (λ at. at < length (entries self.now)) (λ at. at ≤ length (entries self.now)) }
        ensures value { result ≡ searched E.Ord.cmp (entries self.now) probe.now }
    {
        search(self.cells, self.used, probe)
    }

    // The entry equal to the probe, if there is one.
    pub fn get(&self, probe: &E) -> Option<&E>
        ensures { option_copied result ≡ find (λ e. is_eq (E.Ord.cmp e probe.now)) (entries self.now) }
    {
        let at = self.search(probe).ok()?;
        Some(&self.as_slice()[at])
    }

    // Puts the entry in at its place: where it stands now. Refused where an equal entry is there, then where there is no
    // room; the table then stays.
    pub fn insert(&mut self, entry: E) -> Result<usize, InsertFault>
    where
        E: Drop,
        ensures value { result ≡ insertion E.Ord.cmp (capacity self.old) (length (entries self.old)) (entries self.old) entry }
        ensures entries { entries self.new ≡ entries_after_insert result (entries self.old) entry }
        ensures capacity { capacity self.new ≡ capacity self.old }
    {
        let at = insert(self.cells, self.used, entry)?;
        self.used += 1;
        Ok(at)
    }

    // Takes out the entry equal to the probe: where it stood, or `None` and the table as it was.
    pub fn remove(&mut self, probe: &E) -> Option<usize>
        ensures value { result ≡ removal E.Ord.cmp (entries self.old) probe.now }
        ensures entries { entries self.new ≡ entries_after_remove result (entries self.old) }
        ensures capacity { capacity self.new ≡ capacity self.old }
    {
        let at = remove(self.cells, self.used, probe)?;
        self.used -= 1;
        Some(at)
    }
}
