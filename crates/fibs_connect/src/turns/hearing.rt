//! Lines of the server are heard.
ghost use Rattle.std.specs.Prelude.{◌≡◌, ◌∷◌, [], Option, Some, IfSome, OnOk};
ghost use Rattle.std.specs.Option.{option_copied};
ghost use Rattle.fibs_position.specs.GameOf.{game_of};
ghost use Rattle.fibs_connect.specs.Turns.Answering.{Goes};
ghost use Rattle.std.specs.Io.KnownBytes.{Keeps};
ghost use Rattle.fibs_messages.specs.Line.{reading_of, board_line};
ghost use Rattle.fibs_session.specs.History.Machine.{Talk};
ghost use Rattle.fibs_session.specs.Calls.SessionOf.{taken_of};
ghost use Rattle.fibs_session.specs.Calls.Standing.{StandsAfter};
ghost use Rattle.fibs_connect.specs.Turns.Lines.{phase_told, messages_in, taken_act};
ghost use Rattle.fibs_connect.specs.Turns.Script.{Notes, OnlyWhoRefused, outside, directory_told, noted_unless};
ghost use Rattle.fibs_connect.specs.Turns.Turn.{Talked};
ghost use Rattle.fibs_messages.specs.declared.directory.fault.DirectoryFault.{DirectoryFault};

use crate::front::Front;
use crate::said::Said;
use crate::turns::ExchangeFault;
use crate::turns::sending::send_commands;
use crate::turns::turn_fault::TurnFault;
use fibs_engine::link::Link;
use fibs_fields::boards::laws::fields_tell_boards;
use fibs_messages::Reading;
use fibs_position::GameBoard;
use fibs_session::{Client, Directory, Taken};

/// The board of the user's game that a reading says, with its position. The client has it, since it has heard the line.
fn game_in<'a>(client: &'a Client, reading: &Reading<'_>) -> Option<&'a GameBoard>
    ensures { IfSome (option_copied result) (λ game. board_line (game_of game) ≡ reading_of reading.now) }
{
    match reading {
        Reading::Board(board) => {
            let game = client.game()?;
            if fields_tell_boards(game.board(), board) {
                Some(game)
            } else {
                None
            }
        }
        Reading::Numbered(_) | Reading::Text(_) | Reading::Malformed { .. } => None,
    }
}

/// Reports the board that a reading says, if it is good. The client may have it with its position.
fn tell_game<F: Front>(
    game: Option<&GameBoard>,
    reading: &Reading<'_>,
    front: &mut F,
) -> Result<(), ExchangeFault>
    requires { IfSome (option_copied game) (λ game. board_line (game_of game) ≡ reading_of reading.now) }
    ensures { OnOk result (F.tells front.old (phase_told (reading_of reading.now)) front.new) }
{
    if let Some(game) = game {
        return front.tell(&Said::Game(game));
    }
    match reading {
        Reading::Board(board) => match GameBoard::of(board) {
            Ok(game) => front.tell(&Said::Game(&game)),
            Err(_) => Ok(()),
        },
        Reading::Numbered(_) | Reading::Text(_) | Reading::Malformed { .. } => Ok(()),
    }
}

/// Reports a line, and what it calls for.
fn tell_taken<F: Front>(
    client: &Client,
    taken: &Taken<'_>,
    front: &mut F,
) -> Result<(), ExchangeFault>
    ensures { OnOk result (F.tells front.old (taken_act (taken_of taken.now)).tells front.new) }
{
    let game = game_in(client, &taken.reading);
    front.tell(&Said::Heard(&taken.line, &taken.reading, game))?;
    tell_game(game, &taken.reading, front)?;
    match &taken.confirmed {
        None => {}
        Some(asked) => front.tell(&Said::Confirmed(asked))?,
    }
    if !taken.rolled {
        return Ok(());
    }
    front.tell(&Said::Rolled)
}

/// Gives the directory a message. If the directory takes no note, reports why to the front end.
fn note_taken<F: Front>(
    reading: &Reading<'_>,
    directory: &mut Directory,
    front: &mut F,
) -> Result<(), ExchangeFault>
    ensures { OnOk result ((refused : Option DirectoryFault)
        × F.tells front.old (directory_told refused) front.new
        × Notes (Some directory.old) (Some directory.new) (noted_unless refused (messages_in (reading_of reading.now)))
        × OnlyWhoRefused refused (messages_in (reading_of reading.now))) }
{
    match reading {
        Reading::Numbered(message) => match directory.note(message) {
            Ok(()) => Ok(()),
            Err(fault) => front.tell(&Said::Unnoted(fault)),
        },
        Reading::Board(_) | Reading::Text(_) | Reading::Malformed { .. } => Ok(()),
    }
}

/// Writes the commands that a line calls for, then reports it to the front end, then gives it to the directory.
fn hear_line<S: Link, F: Front>(
    client: &Client,
    taken: &Taken<'_>,
    directory: &mut Directory,
    stream: &mut S,
    front: &mut F,
) -> Result<(), TurnFault>
    ensures did { Goes F.tells result (outside (S.contents stream.old) front.old directory.old)
        (outside (S.contents stream.new) front.new directory.new)
        (λ Does far. Does (taken_act (taken_of taken.now) ∷ [])) }
    ensures apart { Keeps (S.remaining stream.old) (S.remaining stream.new) }
{
    send_commands(taken.send.as_slice(), stream)?;
    tell_taken(client, taken, front)?;
    note_taken(&taken.reading, directory, front)?;
    Ok(())
}

/// Feeds the client what was read, and does what its lines call for. It stops at a write that fails.
pub(crate) fn hear_portion<S: Link, F: Front>(
    client: &mut Client,
    directory: &mut Directory,
    portion: &[u8],
    stream: &mut S,
    front: &mut F,
) -> Result<(), TurnFault>
    ensures talked { Goes F.tells result (outside (S.contents stream.old) front.old directory.old)
        (outside (S.contents stream.new) front.new directory.new)
        (λ Does far. (t : Talk) → StandsAfter client.old t → Talked t client.new portion.now far Does) }
    ensures apart { Keeps (S.remaining stream.old) (S.remaining stream.new) }
{
    fibs_session::client::laws::pieces_join();
    fibs_session::client::laws::empty_piece_is_nothing();
    fibs_lines::laws::lines_only_grow();
    let mut rest = portion;
    while !rest.is_empty() {
        let heard = client.read(rest);
        let got = client.got(heard);
        match &got.taken {
            Some(taken) => hear_line(client, taken, directory, stream, front)?,
            None => {}
        }
        rest = &rest[got.used..];
    }
    Ok(())
}
