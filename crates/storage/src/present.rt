// Reading one key of a file.
ghost use Rattle.std.specs.Prelude.{◌≡◌, is_some};
ghost use Rattle.storage.specs.Laws.{FindsLowest, ChangesOwnPair, KeepsOrder};
ghost use Rattle.storage.specs.Pairs.{reached, under};

use crate::mark::PositionMark;
use crate::reading::OrderedReading;
use byte_strings::compare;

// Whether a pair stands under the key. What stands under a key is altered by placing, replacing and removing under
// that key alone, and each leaves the keys ascending.
pub fn is_present<R: OrderedReading>(file: &R, key: &[u8]) -> bool
    ensures value { result ≡ is_some (under key.now (R.OrderedReading.pairs file.now)) }
    ensures own_pair { ChangesOwnPair }
    ensures order { KeepsOrder }
{
    file.fetch(key, &mut []).is_ok()
}

// Whether a search from the string reaches the key: at or above the string, or strictly above it, as the mark says.
// Finding answers the lowest key of a file that is reached.
#[tactic(auto, using(crate::proofs::Lowest::finds_lowest), unfolding(byte_strings::specs::Bytes::below))]
pub fn reaches(mark: PositionMark, from: &[u8], key: &[u8]) -> bool
    ensures value { result ≡ reached mark from.now key.now }
    ensures lowest { FindsLowest }
{
    match mark {
        PositionMark::At => !compare(key, from).is_lt(),
        PositionMark::Beyond => compare(from, key).is_lt(),
    }
}
