//! Positions and plays of backgammon, from the boards of a backgammon server.
#![tactic(auto)]

mod board_effect;
mod crawford;
mod cube;
mod decision;
mod direction;
mod disallowed;
mod game_board;
mod game_part;
mod good_board;
pub mod laws;
mod numbers;
mod own_view;
mod phase;
mod position;
mod position_fault;
mod stake;
mod watched_board;

pub use board_effect::{effect, is_die};
pub use crawford::is_crawford;
pub use cube::CubeOwner;
pub use decision::Decision;
pub use direction::Direction;
pub use disallowed::Disallowed;
pub use fibs_rules::{Play, Step};
pub use game_board::GameBoard;
pub use game_part::differs;
pub use good_board::{is_good, phase_of};
pub use numbers::Numbers;
pub use phase::Phase;
pub use position::Position;
pub use position_fault::PositionFault;
pub use stake::Stake;
pub use watched_board::WatchedBoard;
