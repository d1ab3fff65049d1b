//! A model of a backgammon server, the wires to it and a client, in one world; and the world as a machine over its
//! events, with what holds of it: the headline.
#![tactic(auto)]

pub mod carriers;
mod entry;
mod event;
mod halt;
pub mod laws;
pub mod machine;
mod run_end;
mod server;
pub mod wire;
mod world;

pub use carriers::{Broken, Carrier, InMemory, Way};
pub use entry::Entry;
pub use event::Event;
pub use fibs_position::is_die;
pub use halt::Stop;
pub use machine::WorldRefusal;
pub use run_end::RunEnd;
pub use server::{Served, Server};
pub use wire::is_board_text;
pub use world::World;
