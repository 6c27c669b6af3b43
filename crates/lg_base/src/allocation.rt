//! Want of memory, the one refusal that any call that takes memory may answer.

use std::alloc::{AllocError, AllocFailed};

/// No memory was to be had. It carries nothing: no call says how much it wanted.
#[derive(Clone, Copy, Debug, PartialEq, Eq)]
pub struct Memory;

impl From<AllocError> for Memory {
    fn from(_refused: AllocError) -> Memory {
        Memory
    }
}

impl<T: Drop> From<AllocFailed<T>> for Memory {
    fn from(_refused: AllocFailed<T>) -> Memory {
        Memory
    }
}
