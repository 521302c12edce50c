// Record numbers as keys of four bytes, the most significant first.
ghost use Rattle.std.specs.Prelude.{◌≡◌, ◌-◌, ◌^◌, min, length};
ghost use Rattle.storage.specs.Primary.{record_number, number_key};

use crate::bounds::NUMBER_LEN;

// The number that a key's bytes make, or the highest `usize` where theirs is higher. That of four bytes never is.
pub fn record_number(key: &[u8]) -> usize
    ensures value { result ≡ min (record_number key.now) (2 ^ 64 - 1) }
    ensures four { length key.now ≡ 4 → result ≡ record_number key.now }
{
    let mut number: usize = 0;
    for b in key {
        number = number.saturating_mul(256).saturating_add(usize::from(*b));
    }
    number
}

// The key of a record number: its lowest four bytes.
pub fn number_key(number: usize) -> [u8; NUMBER_LEN]
    ensures { result ≡ number_key number }
{
    let [_, _, _, _, a, b, c, d] = number.to_be_bytes();
    [a, b, c, d]
}
