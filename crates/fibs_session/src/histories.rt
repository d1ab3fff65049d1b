//! What is noted of a client and of the server, and the client as a machine over its inputs: definitions and laws. Of
//! code there is only what a line says to a client, and why a client refuses: the client itself is in `client`.

pub mod laws;
mod reading;
mod refusal;

pub use fibs_game::Refusal;
pub use reading::read_line;
pub use refusal::PlainRefusal;
