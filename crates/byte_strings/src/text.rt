// What a bounded byte string holds, and its order.
ghost use Rattle.std.specs.Prelude.{◌≡◌, ◌↔◌, [], ◌++◌, take, IsTrue, Some, refl};
ghost use Rattle.std.specs.Cmp.{partial_equiv_from_equiv, partial_order_from_agreeing_total};
ghost use Rattle.byte_strings.specs.Bytes.{order, same};
ghost use Rattle.byte_strings.specs.Texts.{text, TotalByText};
ghost use Rattle.byte_strings.specs.StringOrder.{string_order, string_equality, string_ties};

use crate::order::{compare, fill_front};
use crate::string::ByteString;
use std::cmp::Ordering;

impl<const N: usize> ByteString<N> {
    // The string with no bytes.
    pub fn empty() -> ByteString<N>
        ensures { text result ≡ [] }
    {
        ByteString {
            bytes: [0; N],
            len: 0,
        }
    }

    // The bytes of both, one string behind the other, as many as there is room for.
    pub fn joined(front: &[u8], rest: &[u8]) -> ByteString<N>
        ensures { text result ≡ take N (front.now ++ rest.now) }
    {
        let mut bytes = [0; N];
        let room = &mut bytes[..];
        let n = fill_front(front, room);
        let m = fill_front(rest, &mut room[n..]);
        ByteString { bytes, len: n + m }
    }

    // The first bytes, as many as there is room for.
    pub fn front_of(bytes: &[u8]) -> ByteString<N>
        ensures { text result ≡ take N bytes.now }
    {
        ByteString::joined(bytes, &[])
    }

    pub fn as_slice(&self) -> &[u8]
        ensures { result.now ≡ text self.now }
    {
        let all = &self.bytes[..];
        &all[0..self.len]
    }
}

// Equal are those that hold the same bytes. A derived comparison would read the bytes behind them too.
impl<const N: usize> PartialEq for ByteString<N> {
    ghost eq = { λ x y. same (text x) (text y) };

    ghost laws = { partial_equiv_from_equiv string_equality };

    #[tactic(auto, using(crate::proofs::TotalOrder::same_is, crate::proofs::TotalOrder::is_same), unfolding(crate::specs::Bytes::same))]
    fn eq(&self, other: &ByteString<N>) -> bool
        ensures value { result ≡ same (text self.now) (text other.now) }
        ensures equal { IsTrue result ↔ (text self.now ≡ text other.now) }
    {
        self.as_slice() == other.as_slice()
    }
}

impl<const N: usize> Eq for ByteString<N> {
    ghost laws = { string_equality };
}

impl<const N: usize> PartialOrd for ByteString<N> {
    ghost partial_cmp = { λ x y. Some (order (text x) (text y)) };

    ghost laws = { partial_order_from_agreeing_total (λ x y. order (text x) (text y)) string_order (λ _ _. refl) string_ties };

    fn partial_cmp(&self, other: &ByteString<N>) -> Option<Ordering> {
        Some(self.cmp(other))
    }
}

impl<const N: usize> Ord for ByteString<N> {
    ghost cmp = { λ x y. order (text x) (text y) };

    ghost total = { string_order };

    ghost matches_partial_cmp = { λ _ _. refl };

    ghost matches_eq = { string_ties };

    // By what the strings hold, and not by the bytes behind, they are totally ordered.
    fn cmp(&self, other: &ByteString<N>) -> Ordering
        ensures value { result ≡ order (text self.now) (text other.now) }
        ensures total { TotalByText N }
    {
        compare(self.as_slice(), other.as_slice())
    }
}
