//! The accounts of `fibs replay` and `fibs connect` as JSON: an object for each line that is printed without it.

mod endings;
mod entries;
pub mod front;
pub mod laws;
mod parts;
pub mod replay;
mod said;
