//! A stream is shown by a front end.
ghost use Rattle.std.specs.Prelude.{◌≡◌, ◌*◌, IfErr};

use crate::fault::FrontFault;
use crate::front::Front;
use crate::said::Said;
use fibs_engine::fault::EngineFault;
use fibs_engine::limits::READ_PORTION;
use fibs_lines::{Line, Lines};
use fibs_messages::Reading;
use fibs_position::GameBoard;
use fibs_session::histories::read_line;
use std::io::Read;

/// The board that a reading says, with its position, if the user plays in its game.
fn game_in(reading: &Reading<'_>) -> Option<GameBoard> {
    match reading {
        Reading::Board(board) => GameBoard::of(board).ok(),
        Reading::Numbered(_) | Reading::Text(_) | Reading::Malformed { .. } => None,
    }
}

/// Reports a line, and the board of the user's game that it says.
fn tell_line<F: Front>(line: &Line<'_>, front: &mut F) -> Result<(), FrontFault> {
    let reading = read_line(line);
    let found = game_in(&reading);
    let game = found.as_ref();
    front.tell(&Said::Heard(&*line, &reading, game))?;
    match &found {
        Some(game) => front.tell(&Said::Game(game)),
        None => Ok(()),
    }
}

/// Reports each line that a portion ends.
fn tell_portion<F: Front>(
    lines: &mut Lines,
    portion: &[u8],
    front: &mut F,
) -> Result<(), FrontFault> {
    let mut rest = portion;
    while !rest.is_empty() {
        let fed = lines.feed(rest);
        let used = fed.used;
        match &fed.line {
            Some(line) => tell_line(line, front)?,
            None => {}
        }
        rest = &rest[used..];
    }
    Ok(())
}

/// Reports each line that is read to a front end, up to the reader's end, and answers how many bytes follow the last
/// line end. It reads at most `reads` times, and at most 1024 bytes at once.
///
/// Errors: `Device` if a read fails, the reader does not end, or the front end fails.
pub fn show_on<R: Read, F: Front>(
    reads: u32,
    input: &mut R,
    front: &mut F,
) -> Result<usize, EngineFault>
    ensures device { IfErr result (λ why. why ≡ EngineFault.Device) }
{
    let mut lines = Lines::new();
    let mut portion = [0; READ_PORTION];
    for _ in 0..reads {
        front.flush()?;
        let count = match input.read(&mut portion) {
            Ok(0) => return Ok(lines.held()),
            Ok(count) => count,
            Err(_) => return Err(EngineFault::Device),
        };
        tell_portion(&mut lines, &portion[..count], front)?;
    }
    Err(EngineFault::Device)
}
