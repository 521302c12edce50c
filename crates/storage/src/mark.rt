// Where a search along a path starts. It goes beside the string, as an open number keeps the two; std's `Bound` of the
// string has a third case, which no search has.
#[derive(Clone, Copy, PartialEq, Eq, Debug)]
pub enum PositionMark {
    // at the string or above it
    At,
    // strictly above the string
    Beyond,
}
