// A delivery, as a line gives it.
ghost use Rattle.std.specs.Prelude.{◌≡◌, ℕ, List, length, Some};
ghost use Rattle.byte_strings.specs.Texts.{text};
ghost use Rattle.settlement.specs.Delivery.{row_of};

use crate::code::Code;
use crate::flaw::Flaw;
use crate::money::Cents;
use std::alloc::Global;
use storage::KeyRow;

// The specifier of the alternate key 'region'.
const REGION_KEY: [u8; 2] = *b"RG";

pub(crate) const KEY_LEN: usize = 6;

pub(crate) type Key = Code<KEY_LEN>;

const REGION_LEN: usize = 2;

pub(crate) type Region = Code<REGION_LEN>;

#[derive(Drop)]
pub(crate) struct Delivery {
    pub(crate) key: Key,
    pub(crate) region: Region,
    pub(crate) amount: Cents,
    pub(crate) supplier: String,
}

impl Delivery {
    // Reads `KEY REGION CENTS SUPPLIER`, one blank apart; the supplier is the rest of the line.
    pub(crate) fn read(heap: Global, line: &str) -> Result<Delivery, Flaw> {
        let (key, rest) = line.split_once(' ').ok_or(Flaw::Words)?;
        let (region, rest) = rest.split_once(' ').ok_or(Flaw::Words)?;
        let (cents, supplier) = rest.split_once(' ').ok_or(Flaw::Words)?;
        let key = Key::read(key, u8::is_ascii_alphanumeric).ok_or(Flaw::Key)?;
        let region = Region::read(region, u8::is_ascii_uppercase).ok_or(Flaw::Region)?;
        if supplier.trim().is_empty() {
            return Err(Flaw::Supplier);
        }
        Ok(Delivery {
            key,
            region,
            amount: cents.parse()?,
            supplier: String::from_str(heap, supplier)?,
        })
    }

    // The row of this delivery in the key-row file: specifier, region, key.
    pub(crate) fn row(&self) -> KeyRow
        ensures { text result ≡ row_of self.now.region self.now.key }
    {
        let front = KeyRow::joined(&REGION_KEY, self.region.as_bytes());
        KeyRow::joined(front.as_slice(), self.key.as_bytes())
    }
}

// The key at the end of a row.
#[tactic(auto, using(crate::proofs::RowEnds::key_at_end))]
pub(crate) fn key_of(row: &KeyRow) -> Option<Key>
    ensures { (region key : List ℕ) → length key ≡ KEY_LEN → text row.now ≡ row_of region key → result ≡ Some key }
{
    let (_, key) = row.as_slice().split_last_chunk()?;
    Some(Code::from(*key))
}

// The region before it.
#[tactic(auto, using(crate::proofs::RowEnds::front_of_row))]
pub(crate) fn region_of(row: &KeyRow) -> Option<Region>
    ensures { (region key : List ℕ) → length region ≡ REGION_LEN → length key ≡ KEY_LEN → text row.now ≡ row_of region key → result ≡ Some region }
{
    let (front, _) = row.as_slice().split_last_chunk::<KEY_LEN>()?;
    Some(Code::from(*front.last_chunk()?))
}
