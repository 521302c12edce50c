// A table of rows is read in the order of its rows. Each method is a line over the table's own search; a trait of row
// files below them would have as many methods as it spares.
ghost use Rattle.storage.specs.Rows.{bare, bare_ascending};
ghost use Rattle.row_table.specs.Tables.{rows, rows_ascend};

use crate::table::RowTable;
use storage::{Absent, OrderedReading, PositionMark, fill_found};

impl OrderedReading for RowTable<'_> {
    ghost pairs = { λ t. bare (rows t) };

    ghost ascending = { λ t. bare_ascending (rows t) (rows_ascend t) };

    fn count(&self) -> usize {
        self.rows.as_slice().len()
    }

    fn total(&self) -> usize {
        0
    }

    // the pair that the interface wants, of an `Option`
    #[tactic(auto, using(storage::specs::Rows::keys_bare))]
    fn find(&self, from: &[u8], mark: PositionMark, key: &mut [u8]) -> (bool, usize) {
        fill_found(self.next(from, mark), key)
    }

    fn fetch(&self, key: &[u8], bytes: &mut [u8]) -> Result<usize, Absent> {
        self.seek(key).map(|_| 0).map_err(|_| Absent)
    }
}
