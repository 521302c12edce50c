// The rules of the record manager: how a file is described, which codes a call may name and what a refusal is told
// by. In specs/ stands the plain file, which answers every call from its records alone.
#![tactic(auto)]

mod bounds;
mod description;
mod fault;
mod modes;

pub use bounds::{HIGHEST_OFFSET, MOST_ALTERNATE_KEYS};
pub use description::{AlternateKey, FileDescription, KeyField, KeySpecifier, Organization};
pub use fault::CallFault;
pub use modes::{AccessMode, ExclusionMode, OpenModes, PositioningMode, UnknownCode};
