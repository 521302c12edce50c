// A slot of a chain.
ghost use Rattle.std.specs.Prelude.{◌≡◌, []};
ghost use Rattle.byte_strings.specs.Texts.{text};

use storage::KeyRow;

// A row, and the number of the slot that comes next in the chain.
#[derive(Clone, Copy)]
pub struct Slot {
    pub(crate) row: KeyRow,
    pub(crate) next: usize,
}

impl Slot {
    // A slot to make memory of.
    pub fn unused() -> Slot
        ensures empty { text result.row ≡ [] }
        ensures first { result.next ≡ 0 }
    {
        Slot {
            row: KeyRow::empty(),
            next: 0,
        }
    }
}
