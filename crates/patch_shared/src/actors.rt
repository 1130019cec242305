//! Who makes the calls of a book, and how many each has made.
use patch_model::WriterNo;

/// Who makes a call of a book.
#[derive(Clone, Copy, Debug, PartialEq, Eq)]
pub enum Actor {
    /// It gives commands to the store.
    Writer(WriterNo),
    /// It begins writes.
    Flusher,
    /// It ends them.
    Completer,
}

/// How many calls each has made.
#[derive(Clone, Copy, Debug, PartialEq, Eq)]
pub struct Counts {
    /// The commands of each writer.
    pub writers: [u64; 8],
    /// The writes that were begun.
    pub flusher: u64,
    /// The writes that were ended.
    pub completer: u64,
}
