// Both key-row files, given the same 1,000 pseudo-random calls: every answer and every buffer must be alike.
#![tactic(auto)]

mod draws;
mod tally;
mod trial;

use anyhow::bail;
use row_chain::{RowChain, Slot};
use row_table::RowTable;
use storage::KeyRow;
use trial::Trial;

// Few enough that adds meet a full file.
const ROWS: usize = 24;

fn main(rt: HostRuntime) -> anyhow::Result<()> {
    let heap = rt.alloc();
    // as settlement makes them: what is left twice differs in cells and words, and a function for the memory too would hand
    // out what it owns
    let mut cells = vec![in heap; KeyRow::empty(); ROWS]?;
    let mut slots = vec![in heap; Slot::unused(); ROWS]?;
    // no map_err: its closure would take the memory back, a `&mut` slice, which the borrow checker does not cover
    let Ok(table) = RowTable::new(&mut cells, ROWS) else {
        bail!("no space for the table");
    };
    let Ok(chain) = RowChain::new(&mut slots, ROWS) else {
        bail!("no space for the chain");
    };
    let mut trial = Trial::new(table, chain);
    trial.run();
    trial.print(&rt)
}
