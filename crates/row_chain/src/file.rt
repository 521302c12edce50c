// The chain as a key-row file. Each method of reading is a line over the chain's own walk; a trait of row files below them
// would have as many methods as it spares.
ghost use Rattle.storage.specs.Rows.{bare, bare_ascending};
ghost use Rattle.row_chain.specs.Files.{held, limit_of};

use crate::chain::RowChain;
use storage::{
    Absent, KeyRow, KeyRowFile, OrderedReading, PositionMark, RowFault, check_row, fill_found,
};

impl OrderedReading for RowChain<'_> {
    ghost pairs = { λ s. bare (held s) };

    ghost ascending = { λ s. bare_ascending (held s) s.ascending };

    fn count(&self) -> usize {
        self.linked.count
    }

    fn total(&self) -> usize {
        // a row is a key without bytes
        0
    }

    // the pair that the interface wants, of an `Option`
    fn find(&self, from: &[u8], mark: PositionMark, key: &mut [u8]) -> (bool, usize) {
        fill_found(self.next(from, mark), key)
    }

    fn fetch(&self, key: &[u8], bytes: &mut [u8]) -> Result<usize, Absent> {
        self.seek(key).map(|_| 0).map_err(|_| Absent)
    }
}

impl KeyRowFile for RowChain<'_> {
    ghost limit = { λ s. limit_of s };

    fn limit(&self) -> usize {
        self.linked.slots.len()
    }

    fn add(&mut self, row: &[u8]) -> Result<(), RowFault> {
        check_row(row)?;
        let Err(seat) = self.seek(row) else {
            return Err(RowFault::AlreadyExists);
        };
        if self.linked.count >= self.linked.slots.len() {
            return Err(RowFault::FileFull);
        }
        self.linked.splice(seat, KeyRow::front_of(row));
        Ok(())
    }

    fn drop_row(&mut self, row: &[u8]) -> Result<(), RowFault> {
        let Ok(seat) = self.seek(row) else {
            return Err(RowFault::NotFound);
        };
        self.linked.unlink(seat);
        Ok(())
    }
}
