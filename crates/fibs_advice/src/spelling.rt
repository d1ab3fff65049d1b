//! How lines may be spelled that the client does not know.
pub mod meant_moves;
pub mod moves;
pub mod words;
