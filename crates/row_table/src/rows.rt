// A table of rows takes rows in and out.
ghost use Rattle.row_table.specs.Tables.{limit_of};

use crate::table::RowTable;
use storage::{KeyRow, KeyRowFile, LONGEST_ROW, RowFault, check_row};

impl KeyRowFile for RowTable<'_> {
    ghost limit = { λ t. limit_of t };

    fn limit(&self) -> usize {
        self.rows.capacity()
    }

    fn add(&mut self, row: &[u8]) -> Result<(), RowFault> {
        check_row(row)?;
        self.rows.insert(KeyRow::front_of(row))?;
        Ok(())
    }

    #[tactic(auto, using(storage::proofs::Bare::drop_absent, crate::proofs::Sought::long_absent, crate::proofs::Changes::drop_answered, crate::proofs::Changes::held_after_drop, crate::proofs::Changes::not_dropped))]
    fn drop_row(&mut self, row: &[u8]) -> Result<(), RowFault> {
        if row.len() > LONGEST_ROW {
            return Err(RowFault::NotFound);
        }
        self.rows
            .remove(&KeyRow::front_of(row))
            .ok_or(RowFault::NotFound)?;
        Ok(())
    }
}
