//! The server's lines as JSON: one object a line, with the line itself and what it says by name.
#![tactic(auto)]

mod boards;
mod columns;
pub mod eventful;
mod fields;
mod happened;
pub mod laws;
pub mod line;
mod members;
mod place;
pub mod plays;
pub mod show;
mod side;
mod strings;
pub mod told;
pub mod values;
