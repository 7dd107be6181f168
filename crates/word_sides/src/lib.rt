//! Lists of truth values, 64 in a word.
#![tactic(auto)]

mod held;
mod lanes;
mod words;

use std::alloc::AllocError;
pub use words::Words;

/// Memory ran out.
#[derive(Clone, Copy, Debug, PartialEq, Eq)]
pub struct NoRoom;

impl From<AllocError> for NoRoom {
    fn from(_e: AllocError) -> NoRoom {
        NoRoom
    }
}
