//! The outside as traits: a shelf of files and a sink, each with a count of its faults.
//! Over them whole files, and the lines, words and numbers of a text.
#![tactic(auto)]

mod lines;
mod memory;
mod names;
mod number;
mod read_whole;
mod shelf;
mod sink;
mod span;
mod write_whole;

pub use lines::{ContentLines, Line, Lines, Words};
pub use memory::{MemoryShelf, MemorySink, NamedBytes, PlannedFault, ShelfCall};
pub use names::{Bits, Bytes, Name};
pub use number::{integer, natural};
pub use read_whole::{LONGEST_FILE, ReadError, read_all};
pub use shelf::{Failed, Shelf};
pub use sink::Sink;
pub use span::{Span, line_at, word_at};
pub use write_whole::{WriteFault, write_all, write_all_to};
