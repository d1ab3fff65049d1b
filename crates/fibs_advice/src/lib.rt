//! What may be typed: what the user waits for and what is advised then, what the client takes now, how it may be
//! spelled, which rule a move breaks, and why one may not double.
#![tactic(auto)]

pub mod advised;
mod changes;
pub mod doubling;
pub mod hits;
pub mod match_state;
pub mod moved;
pub mod offers;
pub mod passing;
pub mod plays;
pub mod row;
pub mod rules;
pub mod saying;
pub mod situation;
pub mod spelling;
pub mod standing;
pub mod trial;
pub mod watched;
