//! All engines under their names, and what the program does with a command line: its words, its help, what needs no
//! server, and the accounts of `replay` and `connect` as JSON.
#![tactic(auto)]

pub mod arguments;
pub mod objects;
pub mod program;

pub use fibs_connect::converse;
pub use fibs_connect::turns::{Ending, ExchangeFault, exchange};
pub use fibs_engine::dial::READ_MILLIS;
pub use fibs_engine::fault::EngineFault;
pub use fibs_engine::link::Link;
pub use fibs_engine::stream_fault::StreamFault;
pub use fibs_json::told::told_line;
pub use fibs_replay::play_loop::play_loop;
pub use fibs_replay::replay;
pub use fibs_show::plays::plays;
pub use fibs_show::show::{show, show_portions};
