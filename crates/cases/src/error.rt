// What may be wrong with a stored case, and with reading it.
use std::alloc::{AllocError, AllocFailed};
use std::io;
use std::num::ParseIntError;

#[derive(Debug, Drop)]
pub enum CaseError {
    Malformed,
    Number(ParseIntError),
    OutOfMemory,
    Io(io::Error),
}

impl From<ParseIntError> for CaseError {
    fn from(e: ParseIntError) -> CaseError {
        CaseError::Number(e)
    }
}

impl From<AllocError> for CaseError {
    fn from(_e: AllocError) -> CaseError {
        CaseError::OutOfMemory
    }
}

impl<T: Drop> From<AllocFailed<T>> for CaseError {
    fn from(_e: AllocFailed<T>) -> CaseError {
        CaseError::OutOfMemory
    }
}

impl From<io::Error> for CaseError {
    fn from(e: io::Error) -> CaseError {
        CaseError::Io(e)
    }
}
