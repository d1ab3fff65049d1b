//! A terminal: a conversation if memory is refused.

mod conversations;
mod lines;
mod seats;
