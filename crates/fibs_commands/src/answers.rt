//! The commands by which a client answers lines of the server: those that set up a connection, and the roll of a
//! standing order.

ghost use Rattle.std.specs.Prelude.{◌≡◌};
ghost use Rattle.fibs_commands.specs.FirstCommands as first;
ghost use Rattle.fibs_commands.specs.Commands.{command_of};
ghost use Rattle.fibs_commands.specs.TextOf.{text_of};
ghost use Rattle.fibs_position.specs.DecisionValue.{roll};
ghost use Rattle.fibs_position.specs.declared.direction.Direction.{Direction};

use super::text::{AnswerText, answer};

/// `set boardstyle 3`: boards are to be shown in board style 3.
#[tactic(auto, unfolding(crate::specs::FirstCommands::style_text))]
pub fn style_text() -> AnswerText
    ensures { text_of result ≡ first.style_text }
{
    answer("set boardstyle 3")
}

/// `toggle autoboard`: toggles the setting that shows a board after every move.
#[tactic(auto, unfolding(crate::specs::FirstCommands::autoboard_text))]
pub fn autoboard_text() -> AnswerText
    ensures { text_of result ≡ first.autoboard_text }
{
    answer("toggle autoboard")
}

/// `toggle moreboards`: toggles the setting that shows a board after every roll too.
#[tactic(auto, unfolding(crate::specs::FirstCommands::moreboards_text))]
pub fn moreboards_text() -> AnswerText
    ensures { text_of result ≡ first.moreboards_text }
{
    answer("toggle moreboards")
}

/// `board`: the board is to be shown.
#[tactic(auto, unfolding(crate::specs::FirstCommands::board_text))]
pub fn board_text() -> AnswerText
    ensures { text_of result ≡ first.board_text }
{
    answer("board")
}

/// `roll`, by a standing order. It is the same whichever way the player goes.
#[tactic(auto, unfolding(crate::specs::Commands::command_of))]
pub fn roll_text() -> AnswerText
    ensures { (direction : Direction) → text_of result ≡ command_of direction roll }
{
    answer("roll")
}
