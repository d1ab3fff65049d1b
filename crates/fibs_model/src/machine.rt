//! The world as a machine over events, and what holds of it: the headline. It has definitions and laws; the world of
//! the program is in `world`.

pub mod laws;

pub use fibs_game::WorldRefusal;
