//! The program on its devices: if one of them is a terminal, a person sees what happens. Pipes and files get what
//! the engines print, to the byte.

mod devices;
mod playing;

pub use devices::run;
