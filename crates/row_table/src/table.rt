// A table of rows, strictly ascending: making one, and searching it.
ghost use Rattle.std.specs.Prelude.{◌≡◌, [], length, MatchResult};
ghost use Rattle.std.specs.Option.{option_map};
ghost use Rattle.byte_strings.specs.Bytes.{order};
ghost use Rattle.ordered_table.specs.Table.{searched, holds, place};
ghost use Rattle.storage.specs.Checks.{first, settled};
ghost use Rattle.storage.specs.Pairs.{next};
ghost use Rattle.storage.specs.Places.{next_place};
ghost use Rattle.storage.specs.Refusals.{verdict};
ghost use Rattle.storage.specs.Rows.{limit_checks};

use ordered_table::OrderedTable;
use storage::{KeyRow, LONGEST_ROW, PositionMark, Refused, RowFault, RowSpace};

#[derive(Drop)]
pub struct RowTable<'a> {
    pub(crate) rows: OrderedTable<'a, KeyRow>,
}

impl<'a> RowTable<'a> {
    ghost use Rattle.row_table.specs.Tables.{rows, limit_of};

    // A file with no row and that row limit. A limit outside 1 to 16,384, or above what the memory holds, is refused and
    // the memory handed back. A line over `RowSpace`, as for every row file: no trait of makers is plainer.
    pub fn new(
        memory: &'a mut [KeyRow],
        limit: usize,
    ) -> Result<RowTable<'a>, Refused<&'a mut [KeyRow], RowFault>>
        ensures value { verdict result ≡ settled (first (limit_checks limit (length memory.old))) }
        ensures cases { MatchResult result (λ made. (rows made ≡ []) × (limit_of made ≡ limit)) (λ refused. refused.given.now ≡ memory.old) }
    {
        let space = RowSpace::new(memory, limit)?;
        Ok(RowTable {
            rows: OrderedTable::new(space.into_cells()),
        })
    }

    // Where the string stands among the rows, or would stand. One that is longer than any row comes right behind its
    // front.
    pub(crate) fn seek(&self, string: &[u8]) -> Result<usize, usize>
        ensures { result ≡ searched order (rows self.now) string.now }
    {
        let place = self.rows.search(&KeyRow::front_of(string));
        if string.len() <= LONGEST_ROW {
            return place;
        }
        match place {
            Ok(at) => Err(at + 1),
            Err(at) => Err(at),
        }
    }

    // The lowest row at or above the string, or strictly above it.
    pub(crate) fn next(&self, from: &[u8], mark: PositionMark) -> Option<&[u8]>
        ensures { option_map (λ row. row.now) result ≡ next mark from.now (rows self.now) }
    {
        let row = self.rows.as_slice().get(self.next_at(from, mark))?;
        Some(row.as_slice())
    }

    // Where it stands, or the end of the rows. So does a chain with seats; there a link leads on.
    fn next_at(&self, from: &[u8], mark: PositionMark) -> usize
        ensures { result ≡ next_place mark (holds order (rows self.now) from.now) (place order (rows self.now) from.now) }
    {
        match (self.seek(from), mark) {
            (Ok(at), PositionMark::Beyond) => at + 1,
            (Ok(at), PositionMark::At) | (Err(at), _) => at,
        }
    }
}
