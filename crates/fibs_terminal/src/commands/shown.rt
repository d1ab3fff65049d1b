//! The board that is shown, and facts of it, told in words if the user asks.
ghost use Rattle.std.specs.Prelude.{IfSome, OnOk, false};
ghost use Rattle.fibs_picture.specs.InWords.Rows.{Says};
ghost use Rattle.fibs_position.specs.DecisionValue.{roll};
ghost use Rattle.fibs_session.specs.Calls.Standing.{StandsAfter};
ghost use Rattle.fibs_session.specs.History.Machine.{Talk, answer_now, shown_now};
ghost use Rattle.fibs_terminal.specs.Again.{lacks_connection};
ghost use Rattle.fibs_terminal.specs.AskedBoards.{SaysFact, SaysFactShown, TellsOwn, TellsShown};
ghost use Rattle.fibs_terminal.specs.OwnRows.{own_columns};
ghost use Rattle.fibs_terminal.specs.Reasons.{no_game_words};

use crate::drawing::{Boards, Watching};
use crate::own_rows::say_rows;
use crate::reconnecting::is_offline;
use fibs_picture::in_words::{Fact, Told, append_row};
use fibs_session::{Client, Refusal};
use fibs_wording::environment::Page;
use fibs_wording::reasons::refusal_words;
use std::alloc::AllocError;

/// Says that there is no board of the user's own game for which a word asks.
pub(crate) fn say_no_game(client: &Client, page: &mut Page<'_>) -> Result<(), AllocError>
    ensures { OnOk result ((t : Talk) → StandsAfter client.now t → Says (own_columns page.old.settings)
        (no_game_words (lacks_connection (answer_now t roll))) page.old.text.items page.new.text.items) }
{
    if is_offline(client) {
        return say_rows(refusal_words(Refusal::Offline), page);
    }
    say_rows(refusal_words(Refusal::NoBoard), page)
}

/// Tells in words the board of the user's own game.
fn say_own_board(
    client: &Client,
    boards: &mut Boards,
    page: &mut Page<'_>,
) -> Result<(), AllocError>
    ensures { OnOk result ((t : Talk) → StandsAfter client.now t → IfSome (shown_now t) (λ b.
        TellsOwn page.old.settings boards.old.drawn.told b page.old.text.items page.new.text.items)) }
{
    match client.game() {
        Some(game) => boards.tell(game, true, page),
        None => say_no_game(client, page),
    }
}

/// Tells in words the board that is shown: of the game that is watched, else of the user's own.
pub(crate) fn say_board(
    client: &Client,
    watching: &mut Watching,
    boards: &mut Boards,
    page: &mut Page<'_>,
) -> Result<(), AllocError>
    ensures { OnOk result (TellsShown client.now page.old.settings watching.old.heard watching.old.told
        boards.old.drawn.told page.old.text.items page.new.text.items) }
{
    match watching.board() {
        Some(watched) => {
            let watched = *watched;
            watching.tell(&watched, true, page)
        }
        None => say_own_board(client, boards, page),
    }
}

/// Tells in words one fact of the board of the user's own game.
fn say_own_fact(client: &Client, fact: Fact, page: &mut Page<'_>) -> Result<(), AllocError>
    ensures { OnOk result ((t : Talk) → StandsAfter client.now t → IfSome (shown_now t) (λ b.
        SaysFact page.old.settings false b fact page.old.text.items page.new.text.items)) }
{
    let Some(game) = client.game() else {
        return say_no_game(client, page);
    };
    let alloc = page.alloc;
    let told = Told::Game(*game, page.settings.numbers);
    append_row(alloc, &told, fact, page.settings.columns, &mut page.text)
}

/// Tells in words one fact of that board.
pub(crate) fn say_fact(
    client: &Client,
    watching: &Watching,
    fact: Fact,
    page: &mut Page<'_>,
) -> Result<(), AllocError>
    ensures { OnOk result (SaysFactShown client.now page.old.settings watching.now.heard fact
        page.old.text.items page.new.text.items) }
{
    let Some(watched) = watching.board() else {
        return say_own_fact(client, fact, page);
    };
    let alloc = page.alloc;
    let told = Told::Watched(*watched, page.settings.numbers);
    append_row(alloc, &told, fact, page.settings.columns, &mut page.text)
}
