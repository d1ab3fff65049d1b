//! The board after a move that was sent, before the server has shown it.
ghost use Rattle.std.specs.Prelude.{◌≡◌, ◌++◌, OnOk, IfSome, false, true};
ghost use Rattle.fibs_session.specs.History.Machine.{Talk};
ghost use Rattle.fibs_session.specs.Calls.Standing.{StandsAfter};
ghost use Rattle.fibs_terminal.specs.Sent.{AddsSent, IsSentNow, ShowsSent, not_confirmed};

use crate::drawing::Boards;
use crate::drawing::picture::append_marked;
use fibs_advice::trial::Trial;
use fibs_picture::NO_ARRIVALS;
use fibs_position::{Decision, GameBoard};
use fibs_session::Client;
use fibs_wording::environment::Settings;
use std::alloc::{AllocError, Global};

/// What is said below the board, or in place of it if boards are told in words.
const NOT_CONFIRMED: &[u8] = b"Sent, not confirmed by the server yet.\n";

/// The move that was sent and that no board has confirmed, with the board to which it leads; None if there is none.
fn sent_move(client: &Client) -> Option<Trial>
    ensures { (t : Talk) → StandsAfter client.now t → IfSome result (λ sent. IsSentNow t sent) }
{
    let asked = client.waiting()?;
    let Decision::Move(play) = &asked.decision else {
        return None;
    };
    match GameBoard::of(&asked.board) {
        Err(_) => None,
        Ok(game) => Trial::of(&game, play),
    }
}

/// Appends the row that says so.
#[tactic(auto, unfolding(crate::specs::Sent::not_confirmed))]
fn append_not_confirmed(text: &mut Vec<u8>) -> Result<(), AllocError>
    ensures { OnOk result (text.new.items ≡ text.old.items ++ not_confirmed) }
{
    text.extend_from_slice(NOT_CONFIRMED)
}

/// Appends the board to which a move leads that was sent, and that it is not confirmed.
#[tactic(auto, using(crate::proofs::SentLemmas::draws_sent))]
fn draw_sent(
    alloc: Global,
    sent: &Trial,
    settings: &Settings<'_>,
    text: &mut Vec<u8>,
) -> Result<(), AllocError>
    ensures { settings.now.words ≡ false → OnOk result (AddsSent settings.now sent.now text.old.items text.new.items) }
{
    append_marked(alloc, sent.after(), &NO_ARRIVALS, settings, true, text)?;
    append_not_confirmed(text)
}

/// The same; in words that it is not confirmed alone.
#[tactic(auto, using(crate::proofs::SentLemmas::says_sent))]
fn append_sent(
    alloc: Global,
    sent: &Trial,
    settings: &Settings<'_>,
    text: &mut Vec<u8>,
) -> Result<(), AllocError>
    ensures { OnOk result (AddsSent settings.now sent.now text.old.items text.new.items) }
{
    if settings.words {
        return append_not_confirmed(text);
    }
    draw_sent(alloc, sent, settings, text)
}

impl Boards {
    /// Shows once the board after a move that was sent, if no board has confirmed it.
    fn show_sent(
        &mut self,
        alloc: Global,
        client: &Client,
        settings: &Settings<'_>,
        text: &mut Vec<u8>,
    ) -> Result<(), AllocError>
        ensures { OnOk result (ShowsSent client.now settings.now text.old.items text.new.items) }
    {
        let Some(sent) = sent_move(client) else {
            return Ok(());
        };
        if self.is_shown_ahead(sent.after()) {
            return Ok(());
        }
        append_sent(alloc, &sent, settings, text)?;
        self.note_ahead(sent.after(), settings.words);
        Ok(())
    }

    /// The same, unless a board stands above.
    pub(crate) fn show_sent_below(
        &mut self,
        alloc: Global,
        client: &Client,
        is_held: bool,
        settings: &Settings<'_>,
        text: &mut Vec<u8>,
    ) -> Result<(), AllocError>
        ensures sent { OnOk result (ShowsSent client.now settings.now text.old.items text.new.items) }
        ensures held { is_held ≡ true → OnOk result (text.new.items ≡ text.old.items) }
    {
        if is_held {
            return Ok(());
        }
        self.show_sent(alloc, client, settings, text)
    }
}
