//! Which comes first: something typed, or something said.

use std::time::Duration;

/// What is ready first.
#[derive(Clone, Copy, Debug, PartialEq, Eq)]
pub enum First {
    /// Something was typed, or it can't be told: a read is made, which may wait.
    Typed,
    /// The server has said something, and nothing was typed.
    Heard,
}

/// What tells which comes first.
pub trait Watch {
    /// Waits until something is ready.
    fn first(&mut self) -> First;
}

/// What can also wait for some time alone.
pub trait Patience: Watch {
    /// Waits until something is ready, or this time has passed. None if nothing is.
    fn first_within(&mut self, time: Duration) -> Option<First>;
}

/// Watches nothing: each line is read as it comes, and the server is heard with it.
#[derive(Clone, Copy)]
pub struct Unwatched;

impl Watch for Unwatched {
    fn first(&mut self) -> First {
        First::Typed
    }
}

impl Patience for Unwatched {
    fn first_within(&mut self, _time: Duration) -> Option<First> {
        Some(First::Typed)
    }
}
