// A code of N bytes, as a key and a region are, printed a character a byte.
ghost use Rattle.std.specs.Prelude.{◌≡◌, ℕ, List, length, IfSome};

use std::fmt;
use std::marker::Model;

#[derive(Clone, Copy, PartialEq, Eq, Hash)]
pub(crate) struct Code<const N: usize> {
    bytes: [u8; N],
}

impl<const N: usize> Model for Code<N> {
    ghost Value = { List ℕ };

    ghost view = { λ code. code.bytes };

    ghost inverse = { λ bytes. record { bytes = bytes } };
}

impl<const N: usize> Code<N> {
    // The word as a code, where it has N bytes and each passes the test.
    pub(crate) fn read<Test: FnMut(&u8) -> bool>(word: &str, test: Test) -> Option<Code<N>>
        requires { Test.IsAlwaysCallable test }
        ensures { IfSome result (λ code. code ≡ word.now) }
    {
        let bytes: [u8; N] = word.as_bytes().try_into().ok()?;
        bytes.iter().all(test).then_some(Code { bytes })
    }

    pub(crate) fn as_bytes(&self) -> &[u8]
        ensures bytes { result.now ≡ self.now }
        ensures len { length self.now ≡ N }
    {
        &self.bytes
    }
}

impl<const N: usize> From<[u8; N]> for Code<N> {
    ghost from_gives = { λ bytes code. code ≡ bytes };

    fn from(bytes: [u8; N]) -> Code<N> {
        Code { bytes }
    }
}

impl<const N: usize> fmt::Display for Code<N> {
    fn fmt<W: fmt::Write>(&self, f: &mut fmt::Formatter<W>) -> fmt::Result {
        for b in &self.bytes {
            f.write_char(char::from(*b))?;
        }
        Ok(())
    }
}
