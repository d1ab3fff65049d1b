//! The directory of the players that a server listed.

mod directory;
mod fault;
pub mod laws;
mod player;

pub use directory::Directory;
pub use fault::DirectoryFault;
pub use player::Player;
