//! What is printed of the server's lines: the account of a stream, and the list of a board's plays; and which lines
//! are copied as they stand.
#![tactic(auto)]

pub mod copied_lines;
mod line;
mod page;
pub mod plays;
pub mod show;
