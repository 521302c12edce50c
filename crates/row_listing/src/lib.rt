// All rows of a file in their order, by finding from row to row.
#![tactic(auto)]

ghost use Rattle.std.specs.Prelude.{◌≡◌, T, map, take, IfOk};
ghost use Rattle.std.specs.Option.{option_map};
ghost use Rattle.byte_strings.specs.Texts.{text};
ghost use Rattle.storage.specs.Pairs.{keys, next, short};
ghost use Rattle.row_listing.specs.Keys.{key_after};

use std::alloc::{AllocError, Global};
use storage::{KeyRow, LONGEST_ROW, OrderedReading, PositionMark};

// Each key is the lowest above the one before, so where none is longer than a row the list is the file's keys, each
// once and ascending.
pub fn list_rows<R: OrderedReading>(heap: Global, file: &R) -> Result<Vec<KeyRow>, AllocError>
    ensures { IfOk result (λ rows. T (short 66 (keys (R.OrderedReading.pairs file.now))) → map text rows.items ≡ keys (R.OrderedReading.pairs file.now)) }
{
    let mut rows = Vec::new(heap);
    // counted: above the front of a key that is longer than a row, that key is found again
    for _ in 0..file.count() {
        let Some(row) = row_after(file, rows.last()) else {
            break;
        };
        rows.push(row)?;
    }
    Ok(rows)
}

// The first row, or the one that follows the last so far.
fn row_after<R: OrderedReading>(file: &R, last: Option<&KeyRow>) -> Option<KeyRow>
    ensures { option_map text result ≡ option_map (take 66) (key_after (option_map (λ row. text row.now) last.entry) (keys (R.OrderedReading.pairs file.now))) }
{
    match last {
        None => next_row(file, &[], PositionMark::At),
        Some(row) => next_row(file, row.as_slice(), PositionMark::Beyond),
    }
}

// The key that finding comes to, cut to a row: an `Option` again of the pair that the interface wants.
fn next_row<R: OrderedReading>(file: &R, from: &[u8], mark: PositionMark) -> Option<KeyRow>
    ensures { option_map text result ≡ option_map (take 66) (next mark from.now (keys (R.OrderedReading.pairs file.now))) }
{
    let mut buffer = [0; LONGEST_ROW];
    let (there, len) = file.find(from, mark, &mut buffer);
    there.then_some(KeyRow::front_of(&buffer[0..len.min(LONGEST_ROW)]))
}
