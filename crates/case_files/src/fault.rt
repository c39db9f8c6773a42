//! Why a case has no answer.
use std::alloc::{AllocError, AllocFailed};
use std::{fmt, io};
use thiserror::Error;

/// Why a case has no answer, or a case file isn't read.
#[derive(Clone, Copy, Debug, Error)]
pub enum CaseFault {
    /// No question of the file's subject begins like this.
    #[error("no such question")]
    Question,
    /// A word after the question is missing or wrong.
    #[error("a word is missing or wrong")]
    Word,
    /// Bytes are not in hexadecimal digits.
    #[error("bytes are not spelled in hexadecimal digits")]
    Bytes,
    /// A backslash begins no escape.
    #[error("a backslash begins no escape")]
    Escape,
    /// A line of input or of an answer comes before any question.
    #[error("a line has no question above it")]
    Stray,
    /// A text isn't UTF-8.
    #[error("a text is not UTF-8")]
    Text,
    /// What is asked about was not made in this scene.
    #[error("it was not made in this scene")]
    Missing,
    /// A file can't be read or written.
    #[error("a file can't be read or written")]
    File,
    /// Memory ran out.
    #[error("out of memory")]
    Memory,
}

impl From<AllocError> for CaseFault {
    fn from(_error: AllocError) -> CaseFault {
        CaseFault::Memory
    }
}

impl<T: Drop> From<AllocFailed<T>> for CaseFault {
    fn from(_error: AllocFailed<T>) -> CaseFault {
        CaseFault::Memory
    }
}

impl From<fmt::Error> for CaseFault {
    fn from(_error: fmt::Error) -> CaseFault {
        CaseFault::Memory
    }
}

impl From<io::Error> for CaseFault {
    fn from(_error: io::Error) -> CaseFault {
        CaseFault::File
    }
}
