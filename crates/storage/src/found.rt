// Handing over a key that was found.
ghost use Rattle.std.specs.Prelude.{◌≡◌};
ghost use Rattle.std.specs.Option.{option_map};
ghost use Rattle.storage.specs.Reading.{found, filled};

use byte_strings::fill_front;

// What finding answers of the key that it has come to, if any: whether there is one and its whole length, and the key in
// the front of the buffer.
pub fn fill_found(key: Option<&[u8]>, buffer: &mut [u8]) -> (bool, usize)
    ensures value { result ≡ found (option_map (λ k. k.now) key.entry) }
    ensures after { buffer.new ≡ filled (option_map (λ k. k.now) key.entry) buffer.old }
{
    let Some(key) = key else {
        return (false, 0);
    };
    fill_front(key, buffer);
    (true, key.len())
}
