//! The boards of a terminal: their pictures with marks, the same in words, which of those that come are drawn whole,
//! and how a game ended.

mod above;
mod boards;
mod ending;
pub mod laws;
mod look;
mod outcomes;
mod picture;
mod sent;
mod telling;
mod watched;
mod watching;

pub(crate) use above::{Above, end_text, is_wanted};
pub(crate) use boards::Boards;
pub use picture::{append_marked, append_picture};
pub use watched::append_watched;
pub(crate) use watching::Watching;
