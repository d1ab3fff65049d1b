//! Which lines are copied as they stand: a line that says a board, and a message spelled as it is printed. Both are
//! found without making a value of them.

mod canonical;
pub mod check;
mod quick;

pub(crate) use canonical::canonical_line;
