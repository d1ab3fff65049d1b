//! Whole lines of a backgammon server, FIBS: boards in board style 3 and numbered messages (CLIP 1008), read and
//! printed; and the directory of the players that the server listed.
#![tactic(auto)]

pub mod directory;
mod field;
pub mod laws;
mod line;
mod message;
pub mod number;
mod print;
mod reader;

pub use fibs_fields::boards::Board;
pub use fibs_fields::decimal::read_decimal;
pub use fibs_fields::fault::{Fault, FieldFault};
pub use fibs_fields::name::Name;
pub use fibs_fields::split::split;
pub use fibs_fields::word::{Tail, Word};
pub use field::Field;
pub use line::{Reading, is_board_line, message_number, read};
pub use message::{Message, OwnInfo, WhoInfo};
pub use print::print_message;
