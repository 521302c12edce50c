// The order of byte strings, and the front of a buffer.
ghost use Rattle.std.specs.Prelude.{◌≡◌, min, length};
ghost use Rattle.std.specs.declared.cmp.Ordering.TheVariants.{Equal};
ghost use Rattle.std.specs.Cmp.{IsTotalOrder};
ghost use Rattle.byte_strings.specs.Bytes.{Bytes, order, fronted};

use std::cmp::Ordering;

// Which of two byte strings comes first: the first byte that differs decides, unsigned, and a proper prefix comes
// before what it begins. The order is total, and equal means the same bytes.
#[tactic(auto, using(crate::proofs::TotalOrder::total_order, crate::proofs::TotalOrder::equal_is), unfolding(crate::specs::Bytes::order))]
pub fn compare(x: &[u8], y: &[u8]) -> Ordering
    ensures value { result ≡ order x.now y.now }
    ensures total { IsTotalOrder order }
    ensures equal { (a b : Bytes) → order a b ≡ Equal → a ≡ b }
{
    x.cmp(&y)
}

// Copies the bytes into the buffer's front, cut to its length, and leaves the rest of it: how many came.
pub fn fill_front(bytes: &[u8], buffer: &mut [u8]) -> usize
    ensures value { result ≡ min (length bytes.now) (length buffer.old) }
    ensures after { buffer.new ≡ fronted bytes.now buffer.old }
{
    let n = bytes.len().min(buffer.len());
    buffer[0..n].copy_from_slice(&bytes[0..n]);
    n
}
