// A key-row file that keeps its rows in the ordered table, over memory that the caller lends.
#![tactic(auto)]

mod reading;
mod rows;
mod table;

pub use table::RowTable;
