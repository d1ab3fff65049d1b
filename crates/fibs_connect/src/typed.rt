//! The lines that a user types, read portion by portion, and whether the server speaks before the next: the same for
//! all front ends.

pub mod typed_line;
pub mod typed_lines;
pub mod watch;
