//! A terminal: a front end for a person. It draws boards, says in words what happens, says once what may be typed,
//! takes words as players type them, and keeps the game so far.
#![tactic(auto)]

mod account;
mod beginning;
mod commands;
mod company;
mod configuring;
pub mod drawing;
mod fixing;
pub mod laws;
mod leaving;
mod listening;
mod looking;
mod memory;
mod numbering;
pub mod ordering;
mod own_rows;
mod people;
mod placing;
mod reconnecting;
mod record;
mod rematch;
mod resting;
mod results;
mod screen;
mod sending;
pub mod story;
mod table;
mod talk;
mod telling;
mod terminal;
mod title;
mod toggles;
mod watching;

pub use fixing::FixLine;
pub use terminal::Terminal;
