//! Boards of a backgammon server, FIBS, in board style 3: their fields, and how their lines are read and printed.

mod board;
mod field_ranges;
pub mod fields;
pub mod laws;
mod numbers;
mod print;
pub mod read;
mod stored_name;

pub use board::Board;
