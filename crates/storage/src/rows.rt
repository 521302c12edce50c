// A key-row file holds the rows of the alternate keys: keys without bytes. It states its row limit for life.
ghost use Rattle.std.specs.Prelude.{◌≡◌, ℕ, []};
ghost use Rattle.storage.specs.Checks.{first, settled, leaves};
ghost use Rattle.storage.specs.Pairs.{placed, without};
ghost use Rattle.storage.specs.Rows.{add_checks, drop_checks};

use crate::faults::RowFault;
use crate::reading::OrderedReading;

pub trait KeyRowFile: OrderedReading {
    ghost limit: { Self → ℕ };

    fn limit(&self) -> usize
        ensures { result ≡ limit self.now };

    // Puts in a row that is not there.
    fn add(&mut self, row: &[u8]) -> Result<(), RowFault>
        ensures value { result ≡ settled (first (add_checks (limit self.old) (Self.OrderedReading.pairs self.old) row.now)) }
        ensures after { Self.OrderedReading.pairs self.new ≡ leaves result (placed row.now [] (Self.OrderedReading.pairs self.old)) (Self.OrderedReading.pairs self.old) }
        ensures same { limit self.new ≡ limit self.old };

    // Takes a row out.
    fn drop_row(&mut self, row: &[u8]) -> Result<(), RowFault>
        ensures value { result ≡ settled (first (drop_checks (Self.OrderedReading.pairs self.old) row.now)) }
        ensures after { Self.OrderedReading.pairs self.new ≡ leaves result (without row.now (Self.OrderedReading.pairs self.old)) (Self.OrderedReading.pairs self.old) }
        ensures same { limit self.new ≡ limit self.old };
}
