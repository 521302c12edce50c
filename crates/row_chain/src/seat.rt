// Where a row stands in a chain, or would stand.
#[derive(Clone, Copy)]
pub struct Seat {
    // how many rows come before it
    pub(crate) index: usize,
    // the slot whose link leads there; to the first seat the head leads
    pub(crate) before: Option<usize>,
    // the slot that stands there, unless all rows come before
    pub(crate) at: usize,
}
