//! The fields of a line of a backgammon server, FIBS: how one is found, what its text says, and what is wrong with it;
//! how a number and a byte are written; and boards, by their fields.
#![tactic(auto)]

pub mod boards;
mod dash;
pub mod decimal;
pub mod fault;
pub mod fixed;
pub mod hex;
pub mod laws;
pub mod name;
pub mod rating;
pub mod reader;
mod runs;
pub mod split;
pub mod trailing_spaces;
mod values;
pub mod word;
