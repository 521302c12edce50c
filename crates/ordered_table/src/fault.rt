// Why an entry does not go in.
#[derive(Clone, Copy, PartialEq, Eq, Debug)]
pub enum InsertFault {
    // an equal entry is there
    Present,
    // no cell is free
    Full,
}
