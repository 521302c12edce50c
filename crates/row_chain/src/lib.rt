// A key-row file of slots that are chained in the order of their rows. A row goes in and comes out by links alone,
// and the slot of a dropped row is used again.
#![tactic(auto)]

mod chain;
mod file;
mod links;
mod seat;
mod slot;

pub use chain::RowChain;
pub use slot::Slot;
