//! What C sees: records, statuses, and handles that hold a value; and how the values of the crates below are put into
//! them.

pub mod boards;
mod client_handle;
pub mod decisions;
mod directory_handle;
pub mod events;
mod events_handle;
pub mod fields;
pub mod kinds;
pub mod laws;
mod lines_handle;
pub mod listener;
mod loose;
pub mod outstanding;
pub mod status;
pub mod text;
pub mod wire;

pub use client_handle::ClientHandle;
pub use directory_handle::DirectoryHandle;
pub use events_handle::EventsHandle;
pub use lines_handle::LinesHandle;
