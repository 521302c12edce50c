// A primary file holds the records, each under its primary key. It states its shape for life, which each method says of
// itself, as a law of the trait can't speak of its methods.
ghost use Rattle.std.specs.Prelude.{◌≡◌};
ghost use Rattle.storage.specs.declared.shape.PrimaryShape.{PrimaryShape};
ghost use Rattle.storage.specs.Checks.{first, settled, leaves};
ghost use Rattle.storage.specs.Pairs.{placed, replaced, without};
ghost use Rattle.storage.specs.Primary.{place_checks, replace_checks, remove_checks};

use crate::faults::PrimaryFault;
use crate::reading::OrderedReading;
use crate::shape::PrimaryShape;

pub trait PrimaryFile: OrderedReading {
    ghost shape: { Self → PrimaryShape };

    fn shape(&self) -> PrimaryShape
        ensures { result ≡ shape self.now };

    // Puts in a record under a key that has none.
    fn place(&mut self, key: &[u8], bytes: &[u8]) -> Result<(), PrimaryFault>
        ensures value { result ≡ settled (first (place_checks (shape self.old) (Self.OrderedReading.pairs self.old) key.now bytes.now)) }
        ensures after { Self.OrderedReading.pairs self.new ≡ leaves result (placed key.now bytes.now (Self.OrderedReading.pairs self.old)) (Self.OrderedReading.pairs self.old) }
        ensures same { shape self.new ≡ shape self.old };

    // Puts a record in the place of the one under the key.
    fn replace(&mut self, key: &[u8], bytes: &[u8]) -> Result<(), PrimaryFault>
        ensures value { result ≡ settled (first (replace_checks (shape self.old) (Self.OrderedReading.pairs self.old) key.now bytes.now)) }
        ensures after { Self.OrderedReading.pairs self.new ≡ leaves result (replaced key.now bytes.now (Self.OrderedReading.pairs self.old)) (Self.OrderedReading.pairs self.old) }
        ensures same { shape self.new ≡ shape self.old };

    // Takes out the record under the key.
    fn remove(&mut self, key: &[u8]) -> Result<(), PrimaryFault>
        ensures value { result ≡ settled (first (remove_checks (shape self.old) (Self.OrderedReading.pairs self.old) key.now)) }
        ensures after { Self.OrderedReading.pairs self.new ≡ leaves result (without key.now (Self.OrderedReading.pairs self.old)) (Self.OrderedReading.pairs self.old) }
        ensures same { shape self.new ≡ shape self.old };
}
