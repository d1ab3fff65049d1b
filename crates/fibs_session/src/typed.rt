//! What a line that a user types is: a decision, a plain command, a standing order, or none of these; whether the
//! client would take it; and whether it decides in the game, as a server may read it.

pub mod deciding;
pub mod meant;
pub mod taking;
pub mod typing;
