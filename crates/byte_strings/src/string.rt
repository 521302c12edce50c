// A byte string of at most N bytes.
ghost use Rattle.std.specs.Prelude.{◌≤◌};

// What it holds is the first `len` bytes; the bytes behind them mean nothing. An `ArrayVec` would say as much, but it is
// not `Copy`, and strings are copied in and out of cells of lent memory.
#[derive(Clone, Copy)]
pub struct ByteString<const N: usize> {
    pub(crate) bytes: [u8; N],
    pub(crate) len: usize,
    ghost within: { len ≤ N },
}
