// Memory for a stated number of rows.
ghost use Rattle.std.specs.Prelude.{◌≡◌, length, take, MatchResult};
ghost use Rattle.storage.specs.Checks.{first, settled};
ghost use Rattle.storage.specs.Rows.{limit_checks};
ghost use Rattle.storage.specs.Refusals.{verdict};

use crate::faults::RowFault;
use crate::limits::check_row_limit;
use crate::refused::Refused;

// As many cells as the file made of them is to hold rows.
#[derive(Drop)]
pub struct RowSpace<'a, C> {
    cells: &'a mut [C],
}

impl<'a, C> RowSpace<'a, C> {
    // The first cells of the memory, as many as the limit says. A limit outside 1 to 16,384, or above what the memory
    // holds, is refused and the memory handed back.
    pub fn new(
        memory: &'a mut [C],
        limit: usize,
    ) -> Result<RowSpace<'a, C>, Refused<&'a mut [C], RowFault>>
        ensures value { verdict result ≡ settled (first (limit_checks limit (length memory.old))) }
        ensures cases { MatchResult result (λ space. (space.cells.now ≡ take limit memory.old) × (length space.cells.now ≡ limit)) (λ refused. refused.given.now ≡ memory.old) }
    {
        match check_row_limit(limit, memory.len()) {
            Ok(()) => Ok(RowSpace {
                cells: &mut memory[0..limit],
            }),
            Err(fault) => Err(Refused {
                given: memory,
                fault,
            }),
        }
    }

    pub fn into_cells(self) -> &'a mut [C]
        ensures { result.now ≡ self.entry.cells.now }
    {
        let RowSpace { cells } = self;
        cells
    }
}
