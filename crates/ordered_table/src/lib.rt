// One ordered table over a caller's slice, for every entry that has a total order. The first `used` cells hold the
// entries, strictly ascending; the cells behind them are free.
#![tactic(auto)]

ghost use Rattle.std.specs.Prelude.{◌≡◌, ◌<◌, ◌≤◌, min, length, take, IfSome, MatchResult};
ghost use Rattle.ordered_table.specs.Table.{Ascending, searched, insertion, removal, inserted_by, removed_by, used_after_insert, used_after_remove};

mod fault;
mod table;

pub use fault::InsertFault;
pub use table::OrderedTable;

// The three functions take any slice and how much of it is in use, as a caller may have them apart; an `OrderedTable` has
// both in one, and that its entries ascend.

// Where the entry equal to the probe stands, or where one would go in. The search is binary. A count of used cells
// beyond the slice means all of it.
pub fn search<E: Ord>(cells: &[E], used: usize, probe: &E) -> Result<usize, usize>
    ensures bound { MatchResult result (λ at. at < length (take used cells.now)) (λ at. at ≤ length (take used cells.now)) }
    ensures value { Ascending E.Ord.cmp (take used cells.now) → result ≡ searched E.Ord.cmp (take used cells.now) probe.now }
{
    cells[..used.min(cells.len())].binary_search(probe)
}

// Puts the entry in at its place and moves those behind it on by one cell: where it stands now. Refused where an
// equal entry is there, then where no cell is free; the cells then stay.
pub fn insert<E: Ord + Drop>(cells: &mut [E], used: usize, entry: E) -> Result<usize, InsertFault>
    ensures after { cells.new ≡ inserted_by result cells.old used entry }
    ensures value { Ascending E.Ord.cmp (take used cells.old) → result ≡ insertion E.Ord.cmp (length cells.old) used (take used cells.old) entry }
    ensures ascending { Ascending E.Ord.cmp (take used cells.old) → Ascending E.Ord.cmp (take (used_after_insert result used) cells.new) }
{
    let Err(at) = search(cells, used, &entry) else {
        return Err(InsertFault::Present);
    };
    if used >= cells.len() {
        return Err(InsertFault::Full);
    }
    let tail = &mut cells[at..used + 1];
    tail.rotate_right(1);
    tail[0] = entry;
    Ok(at)
}

// Takes out the entry equal to the probe, moves those behind it back by one cell and leaves it in the cell that
// this frees: where it stood, or `None` and the cells as they were.
pub fn remove<E: Ord>(cells: &mut [E], used: usize, probe: &E) -> Option<usize>
    ensures bound { IfSome result (λ at. at < length (take used cells.old)) }
    ensures after { cells.new ≡ removed_by result cells.old used }
    ensures value { Ascending E.Ord.cmp (take used cells.old) → result ≡ removal E.Ord.cmp (take used cells.old) probe.now }
    ensures ascending { Ascending E.Ord.cmp (take used cells.old) → Ascending E.Ord.cmp (take (used_after_remove result (min used (length cells.old))) cells.new) }
{
    let at = search(cells, used, probe).ok()?;
    let end = used.min(cells.len());
    cells[at..end].rotate_left(1);
    Some(at)
}
