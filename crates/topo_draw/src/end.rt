use crate::flaw::Flaw;
use std::alloc::{AllocError, AllocFailed};
use thiserror::Error;

/// Why tables give no drawing.
#[derive(Clone, Copy, Debug, PartialEq, Eq, Error)]
pub enum TableEnd {
    #[error("line {line}: {flaw}")]
    BadLine { line: u64, flaw: Flaw },
    #[error("no layer has this name")]
    NoLayer,
    #[error("out of memory")]
    Memory,
}

impl From<AllocError> for TableEnd {
    fn from(_: AllocError) -> Self {
        TableEnd::Memory
    }
}

impl<T: Drop> From<AllocFailed<T>> for TableEnd {
    fn from(_: AllocFailed<T>) -> Self {
        TableEnd::Memory
    }
}

/// Why nothing, or not all, is written.
#[derive(Clone, Copy, Debug, PartialEq, Eq, Error)]
pub enum DrawEnd {
    #[error("the words are: [--layer NAME]")]
    Words,
    #[error("standard input failed")]
    Source,
    #[error("the tables have more than 268435456 bytes")]
    TooLong,
    #[error("out of memory")]
    Memory,
    #[error("{0}")]
    Tables(TableEnd),
    #[error("standard output failed")]
    Sink,
}

impl DrawEnd {
    /// The status of the process.
    pub fn status(&self) -> u8 {
        match self {
            DrawEnd::Words => 2,
            DrawEnd::Tables(TableEnd::BadLine { .. }) => 3,
            DrawEnd::Tables(TableEnd::NoLayer) => 4,
            DrawEnd::Source => 5,
            DrawEnd::Sink => 6,
            DrawEnd::Memory | DrawEnd::Tables(TableEnd::Memory) => 8,
            DrawEnd::TooLong => 9,
        }
    }
}
