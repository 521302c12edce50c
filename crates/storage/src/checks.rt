// What a primary file refuses, by the figures that it keeps of its pairs: how many there are, the total of their
// bytes, and what stands under the key.
ghost use Rattle.std.specs.Prelude.{◌≡◌, ◌+◌, not, ◌&&◌, List, length, is_some, nat_eq, nat_le, nat_lt};
ghost use Rattle.std.specs.Option.{option_map};
ghost use Rattle.byte_strings.specs.Bytes.{Bytes, same};
ghost use Rattle.storage.specs.Checks.{first, settled};
ghost use Rattle.storage.specs.Pairs.{total, under};
ghost use Rattle.storage.specs.Primary.{is_relative, is_entry_sequenced, record_number, number_key, wrong_length, place_checks, PlacingTestsRoom, replace_checks, remove_checks};

use crate::faults::PrimaryFault;
use crate::numbers::{number_key, record_number};
use crate::shape::{FileKind, PrimaryShape};

impl PrimaryShape {
    // What placing answers in every file of that many pairs and bytes, with or without a pair under the key. Its last
    // test is the one for room, which is thus said of placing wherever it is cited.
    pub fn check_place(
        self,
        count: usize,
        byte_total: usize,
        present: bool,
        key: &[u8],
        bytes: &[u8],
    ) -> Result<(), PrimaryFault>
        ensures value { (ps : List (Bytes × Bytes)) → count ≡ length ps → byte_total ≡ total ps → present ≡ is_some (under key.now ps) → result ≡ settled (first (place_checks self ps key.now bytes.now)) }
        ensures room { PlacingTestsRoom }
    {
        if key.len() != self.key_len
            || self.is_wrong_length(bytes)
            || self.kind.is_other_than_next(count, key)
        {
            return Err(PrimaryFault::IllegalCount);
        }
        if present {
            return Err(PrimaryFault::AlreadyExists);
        }
        if count >= self.record_limit
            || exceeds(self.byte_limit, byte_total, bytes.len())
            || self.is_number_too_high(key)
        {
            return Err(PrimaryFault::FileFull);
        }
        Ok(())
    }

    // What replacing answers in every file of that many bytes, by the length of the record under the key, if any.
    #[tactic(auto, using(crate::proofs::Figures::total_changed))]
    pub fn check_replace(
        self,
        byte_total: usize,
        old_len: Option<usize>,
        bytes: &[u8],
    ) -> Result<(), PrimaryFault>
        ensures { (ps : List (Bytes × Bytes)) (key : Bytes) → byte_total ≡ total ps → old_len ≡ option_map length (under key ps) → result ≡ settled (first (replace_checks self ps key bytes.now)) }
    {
        let old_len = old_len.ok_or(PrimaryFault::NotFound)?;
        if self.is_wrong_length(bytes) || self.kind.is_changed_length(old_len, bytes.len()) {
            return Err(PrimaryFault::IllegalCount);
        }
        let others = byte_total.saturating_sub(old_len);
        if exceeds(self.byte_limit, others, bytes.len()) {
            return Err(PrimaryFault::FileFull);
        }
        Ok(())
    }

    fn is_wrong_length(self, bytes: &[u8]) -> bool
        ensures { result ≡ wrong_length self bytes.now }
    {
        !(1..=self.max_record_len).contains(&bytes.len())
    }

    fn is_number_too_high(self, key: &[u8]) -> bool
        ensures { result ≡ (is_relative self.kind && nat_le self.record_limit (record_number key.now)) }
    {
        self.kind == FileKind::Relative && record_number(key) >= self.record_limit
    }
}

impl FileKind {
    // What removing answers in every file of that kind, with or without a record under the key.
    pub fn check_remove(self, present: bool) -> Result<(), PrimaryFault>
        ensures { (shape : PrimaryShape) (ps : List (Bytes × Bytes)) (key : Bytes) → self ≡ shape.kind → present ≡ is_some (under key ps) → result ≡ settled (first (remove_checks shape ps key)) }
    {
        if !present {
            return Err(PrimaryFault::NotFound);
        }
        if self == FileKind::EntrySequenced {
            return Err(PrimaryFault::IllegalCount);
        }
        Ok(())
    }

    // Whether the key is not the one that the next record takes, where records are numbered in their order.
    #[tactic(auto, unfolding(byte_strings::specs::Bytes::same))]
    fn is_other_than_next(self, count: usize, key: &[u8]) -> bool
        ensures { result ≡ (is_entry_sequenced self && not (same key.now (number_key count))) }
    {
        self == FileKind::EntrySequenced && key != &number_key(count)[..]
    }

    // Whether a record would take another length, where each keeps its first one.
    fn is_changed_length(self, old_len: usize, new_len: usize) -> bool
        ensures { result ≡ (is_entry_sequenced self && not (nat_eq new_len old_len)) }
    {
        self == FileKind::EntrySequenced && new_len != old_len
    }
}

// Whether so many bytes more exceed the limit; their sum may be too high for a `usize`.
fn exceeds(limit: usize, byte_total: usize, more: usize) -> bool
    ensures { result ≡ nat_lt limit (more + byte_total) }
{
    byte_total > limit || more > limit - byte_total
}
