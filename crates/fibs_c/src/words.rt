//! A board in words.

ghost use Rattle.std.specs.Prelude.{IfOk, IfErr};
ghost use Rattle.fibs_fields.specs.StoredBoard.{fields_of};
ghost use Rattle.fibs_position.specs.First.{IsFirst};
ghost use Rattle.fibs_position.specs.GoodBoard.{HasFault, faults};
ghost use Rattle.fibs_c.specs.PositionDoor.{IsNoPosition};
ghost use Rattle.fibs_c.specs.WordsDoor.{IsToldIn, IsToldOf, IsWordsTold};

use crate::records::status::{MEMORY, field_fault_status, position_fault_status};
use crate::records::text::hand_out;
use fibs_fields::boards::Board;
use fibs_picture::in_words::{Told, append_told};
use fibs_position::{GameBoard, Numbers, PositionFault, WatchedBoard};
use std::alloc::Global;

/// A board as it is told in words, or why it has no position.
fn told_of(board: &Board) -> Result<Told, PositionFault>
    ensures told { IfOk result (λ told. IsToldOf (fields_of board.now) told) }
    ensures fault { IfErr result (λ fault. IsFirst (HasFault (fields_of board.now)) faults fault) }
{
    match WatchedBoard::of(board) {
        Some(watched) => Ok(Told::Watched(watched, Numbers::TheOwn)),
        None => match GameBoard::of(board) {
            Err(fault) => Err(fault),
            Ok(game) => Ok(Told::Game(game, Numbers::TheOwn)),
        },
    }
}

/// The board of a line as it is told in words, or why it has no position.
fn told_in(line: &[u8]) -> Result<Told, u32>
    ensures told { IfOk result (λ told. IsToldIn line.now told) }
    ensures fault { IfErr result (λ status. IsNoPosition line.now status) }
{
    match Board::read(line) {
        Err(wrong) => Err(field_fault_status(wrong.fault)),
        Ok(board) => match told_of(&board) {
            Err(fault) => Err(position_fault_status(fault)),
            Ok(told) => Ok(told),
        },
    }
}

/// The board of a line in words, a fact a row, each with a line end: in the player's own numbers. Of a game that is
/// watched the first row has the names of both.
#[unsafe(no_mangle)]
pub extern "C" fn fibs_words(alloc: Global, line: &[u8], text: &mut [u8], len: &mut usize) -> u32
    ensures { IsWordsTold line.now text.old text.new len.old len.new result }
{
    match told_in(line) {
        Err(status) => status,
        Ok(told) => {
            let mut words = Vec::new(alloc);
            match append_told(alloc, &None, &told, usize::MAX, &mut words) {
                Err(_) => MEMORY,
                Ok(()) => hand_out(words.as_slice(), text, len),
            }
        }
    }
}
