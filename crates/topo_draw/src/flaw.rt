use std::alloc::{AllocError, AllocFailed};
use thiserror::Error;

/// What is wrong with a line of the tables.
#[derive(Clone, Copy, Debug, PartialEq, Eq, Error)]
pub enum Flaw {
    #[error("the tables begin with the line of the next ids, `next` and five numbers")]
    NoNext,
    #[error("the faces begin with the line `face 0 -`")]
    NoFaceZero,
    #[error("no line of the tables begins with this word")]
    Word,
    #[error("lines that begin with this word stand earlier")]
    Order,
    #[error("a word is missing")]
    Short,
    #[error("there is a word too many")]
    Long,
    #[error("a word isn't the number that is wanted there, or is out of range")]
    Number,
    #[error("rows ascend by their ids, and this one doesn't stand above the one before it")]
    Ascending,
    #[error("a corner of the box is beyond the other")]
    Corners,
    #[error("the last word is no name of a layer")]
    Name,
    #[error("it names the edge {edge} as next, which isn't in the tables")]
    Link { edge: u32 },
    #[error("the links that leave this edge don't lead back to it")]
    Ring,
    #[error("out of memory")]
    Memory,
}

impl From<AllocError> for Flaw {
    fn from(_: AllocError) -> Self {
        Flaw::Memory
    }
}

impl<T: Drop> From<AllocFailed<T>> for Flaw {
    fn from(_: AllocFailed<T>) -> Self {
        Flaw::Memory
    }
}
