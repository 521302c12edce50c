// Byte strings: their order, and their way into buffers and bounded memory.
#![tactic(auto)]

mod order;
mod string;
mod text;

pub use order::{compare, fill_front};
pub use string::ByteString;
