// Ordered reading: a file is a list of pairs, a key and its bytes, with the keys strictly ascending.
ghost use Rattle.std.specs.Prelude.{◌≡◌, List, length};
ghost use Rattle.byte_strings.specs.Bytes.{Bytes};
ghost use Rattle.storage.specs.Pairs.{Ascending, keys, total, next, under};
ghost use Rattle.storage.specs.Reading.{found, fetched, filled};

use crate::faults::Absent;
use crate::mark::PositionMark;

pub trait OrderedReading {
    // What the file holds.
    ghost pairs: { Self → List (Bytes × Bytes) };

    // Each file shows that its keys ascend.
    ghost ascending: { (s : Self) → Ascending (keys (pairs s)) };

    // The number of pairs.
    fn count(&self) -> usize
        ensures { result ≡ length (pairs self.now) };

    // The total of their bytes; keys do not count.
    fn total(&self) -> usize
        ensures { result ≡ total (pairs self.now) };

    // The lowest key at or above `from`, or strictly above it: whether there is one, and its whole length. The key
    // fills the front of the buffer, cut to the buffer's length. The rules want this pair of every file, in the place of
    // an `Option`.
    fn find(&self, from: &[u8], mark: PositionMark, key: &mut [u8]) -> (bool, usize)
        ensures value { result ≡ found (next mark from.now (keys (pairs self.now))) }
        ensures after { key.new ≡ filled (next mark from.now (keys (pairs self.now))) key.old };

    // The bytes under a key fill the front of the buffer, cut to its length: how many came.
    fn fetch(&self, key: &[u8], bytes: &mut [u8]) -> Result<usize, Absent>
        ensures value { result ≡ fetched (under key.now (pairs self.now)) (length bytes.old) }
        ensures after { bytes.new ≡ filled (under key.now (pairs self.now)) bytes.old };
}
