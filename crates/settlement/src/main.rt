// The settlement firm's batch: deliveries come in, one a line, and each region's list with its sum goes out. The
// lists are read along the alternate key 'region', from two key-row files of different make that must agree.
#![tactic(auto)]

mod batch;
mod code;
mod delivery;
mod files;
mod flaw;
mod money;
mod report;

use anyhow::{anyhow, bail};
use batch::Batch;
use row_chain::{RowChain, Slot};
use row_table::RowTable;
use std::env;
use std::io::BufReader;
use std::rt::Env;
use storage::{KeyRow, MOST_ROWS};

// The row limit where the program is given none.
const USUAL_ROWS: usize = 4_096;

const OUT_OF_RANGE: &str = "the row limit is not 1 to 16384";

fn main(rt: HostRuntime) -> anyhow::Result<()> {
    let heap = rt.alloc();
    let limit = row_limit(&rt)?;
    let held = limit.min(MOST_ROWS);
    // as rows_alike makes them, which differs in size and words
    let mut cells = vec![in heap; KeyRow::empty(); held]?;
    let mut slots = vec![in heap; Slot::unused(); held]?;
    // no `map_err`: it takes a `&mut` in either variant, which the borrow checker does not cover
    let Ok(table) = RowTable::new(cells.as_mut_slice(), limit) else {
        bail!(OUT_OF_RANGE);
    };
    let Ok(chain) = RowChain::new(slots.as_mut_slice(), limit) else {
        bail!(OUT_OF_RANGE);
    };
    let mut batch = Batch::new(heap, table, chain);
    batch.take_in_lines(&rt, BufReader::new(heap, rt.stdin())?)?;
    batch.print(&rt)
}

// The first argument, a number of rows.
fn row_limit(rt: &(impl AllocGlobal + Env)) -> anyhow::Result<usize> {
    let Some(word) = env::args(rt)?.nth(1) else {
        return Ok(USUAL_ROWS);
    };
    word.as_str()
        .parse()
        .map_err(|_| anyhow!("the row limit is no number"))
}
