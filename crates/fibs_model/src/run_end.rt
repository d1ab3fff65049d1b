//! How a run of events ended.

use crate::machine::WorldRefusal;

/// How a run of events ended.
#[derive(Clone, Copy, Debug, PartialEq, Eq)]
pub struct RunEnd {
    /// The events that were accepted, all of them before the one that was not.
    pub done: usize,
    /// Why the next event is refused; None if all were accepted.
    pub refusal: Option<WorldRefusal>,
}
