//! What a simulator of a module asks of it once: which blocks of nets read a net or a memory, and which nets are registers.

mod readers;
mod registers;

pub use readers::{BLOCK, BlockLists, Readers, block_count, mark};
pub use registers::{Register, registers_of};
