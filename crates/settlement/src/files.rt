// Two key-row files that take the same rows.
ghost use Rattle.std.specs.Prelude.{◌≡◌, []};
ghost use Rattle.byte_strings.specs.Texts.{text};
ghost use Rattle.storage.specs.Checks.{leaves};
ghost use Rattle.storage.specs.Pairs.{placed};

use storage::{KeyRow, KeyRowFile, RowFault};

#[derive(Drop)]
pub(crate) struct BothFiles<T: KeyRowFile, C: KeyRowFile> {
    pub(crate) table: T,
    pub(crate) chain: C,
}

impl<T: KeyRowFile, C: KeyRowFile> BothFiles<T, C> {
    // The row goes into both files, or both are left as they were: what the table took in it gives back, which is never
    // refused.
    #[tactic(auto, using(storage::proofs::OwnPair::dropped_again))]
    pub(crate) fn add(&mut self, row: &KeyRow) -> Result<(), RowFault>
        ensures table { T.OrderedReading.pairs self.new.table ≡ leaves result (placed (text row.now) [] (T.OrderedReading.pairs self.old.table)) (T.OrderedReading.pairs self.old.table) }
        ensures chain { C.OrderedReading.pairs self.new.chain ≡ leaves result (placed (text row.now) [] (C.OrderedReading.pairs self.old.chain)) (C.OrderedReading.pairs self.old.chain) }
    {
        let row = row.as_slice();
        self.table.add(row)?;
        if let Err(fault) = self.chain.add(row) {
            self.table.drop_row(row)?;
            return Err(fault);
        }
        Ok(())
    }
}
