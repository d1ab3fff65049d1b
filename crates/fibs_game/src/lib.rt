//! A client and a server of any game, in one world, as machines: definitions, what holds of them, and why a client
//! refuses and an event is refused. No rule of backgammon is here, and of its spelling the line end alone; names, as of
//! refusals and flags, and the two dice come from it.
#![tactic(auto)]

pub mod examples;
mod refusal;
mod world_refusal;

pub use refusal::Refusal;
pub use world_refusal::WorldRefusal;
