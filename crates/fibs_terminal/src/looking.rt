//! What the user looks at before he decides: legal moves, and the board after a move.
ghost use Rattle.std.specs.Prelude.{◌≡◌, ◌↔◌, ◌++◌, None, Some, OnOk, IfOk, IfSome, false, true};
ghost use Rattle.fibs_position.specs.DecisionValue.{decision_of};
ghost use Rattle.fibs_session.specs.History.Machine.{Talk, shown_now};
ghost use Rattle.fibs_session.specs.Calls.Standing.{StandsAfter};
ghost use Rattle.fibs_advice.specs.Trials.{tried, tried_on};
ghost use Rattle.fibs_advice.specs.declared.trial.Trial.{Trial as AnyTrial};
ghost use Rattle.fibs_terminal.specs.Asking.{SendsUntaken};
ghost use Rattle.fibs_terminal.specs.Leaving.{NeverQuits};
ghost use Rattle.fibs_terminal.specs.Sending.{SendsNoDecision};
ghost use Rattle.fibs_terminal.specs.Boxes.{kept_looking};
ghost use Rattle.fibs_terminal.specs.Trying.{DrawsTrial, IsTriedNow, SendsTried, ShowsTrial, TellsTrial, command_by, go_row};

use crate::commands::{say_no_game, set_line};
use crate::drawing::append_picture;
use crate::own_rows::say_rows;
use fibs_advice::plays::{Listing, Sheet, append_plays};
use fibs_advice::trial::Trial;
use fibs_commands::laws::read_command_is_exact;
use fibs_connect::typed_line::TypedLine;
use fibs_connect::wish::Wish;
use fibs_position::{Decision, Numbers};
use fibs_session::Client;
use fibs_wording::environment::Page;
use std::alloc::AllocError;

/// What is said if `plays` is followed by no place.
const WHICH_PLAYS: &[u8] = b"plays, plays 24, plays bar, or plays more.\n";

/// What is said if no move follows `try`.
pub(crate) const TRY_WHAT: &[u8] =
    b"try 8-5 6-5: shows the board after that move, and sends nothing.\n";

/// What is said if `go` has nothing to send.
const NOTHING_TRIED: &[u8] =
    b"go sends the move that you tried on this board: try 8-5 6-5 shows it first.\n";

/// The move that a decision is, and the board to which it leads from the one that is shown, if there is one.
pub(crate) fn trial_of(client: &Client, decision: &Decision) -> Option<Trial>
    ensures shown { (t : Talk) → StandsAfter client.now t
        → IfSome result (λ trial. shown_now t ≡ Some (tried_on trial)) }
    ensures tried { IfSome result (λ trial. tried trial ≡ decision_of decision.now) }
{
    let game = client.game()?;
    match decision {
        Decision::Move(play) => Trial::of(game, play),
        _ => None,
    }
}

/// Appends how a move that is tried is sent, in these numbers.
#[tactic(auto, unfolding(crate::specs::Trying::go_row))]
fn append_command(trial: &Trial, numbers: Numbers, text: &mut Vec<u8>) -> Result<(), AllocError>
    ensures { OnOk result (text.new.items ≡ text.old.items ++ go_row (command_by numbers trial.now)) }
{
    let command = trial.command_by(numbers);
    text.extend_from_slice(b"Not sent yet: go sends ")?;
    text.extend_from_slice(command.as_str().as_bytes())?;
    text.extend_from_slice(b"\n")
}

/// Appends the picture of the board after a move that is tried, and how it is sent.
fn append_drawn(trial: &Trial, page: &mut Page<'_>) -> Result<(), AllocError>
    ensures { page.old.settings.words ≡ false → OnOk result
        (DrawsTrial page.old.settings trial.now page.old.text.items page.new.text.items) }
{
    let alloc = page.alloc;
    append_picture(alloc, trial.after(), &page.settings, &mut page.text)?;
    let mut row = Vec::new(alloc);
    append_command(trial, page.settings.numbers, &mut row)?;
    say_rows(row.as_slice(), page)?;
    Ok(())
}

/// Appends in words what a move that is tried changes, and how it is sent.
fn append_told(trial: &Trial, page: &mut Page<'_>) -> Result<(), AllocError>
    ensures { OnOk result
        (TellsTrial page.old.settings trial.now page.old.text.items page.new.text.items) }
{
    let alloc = page.alloc;
    let numbers = page.settings.numbers;
    let mut said = Vec::new(alloc);
    trial.append_changes(alloc, numbers, &mut said)?;
    append_command(trial, numbers, &mut said)?;
    say_rows(said.as_slice(), page)?;
    Ok(())
}

/// Appends what is shown of a move that is tried, and how it is sent.
fn append_trial(trial: &Trial, page: &mut Page<'_>) -> Result<(), AllocError>
    ensures drawn { page.old.settings.words ≡ false → OnOk result
        (DrawsTrial page.old.settings trial.now page.old.text.items page.new.text.items) }
    ensures told { page.old.settings.words ≡ true → OnOk result
        (TellsTrial page.old.settings trial.now page.old.text.items page.new.text.items) }
{
    if page.settings.words {
        return append_told(trial, page);
    }
    append_drawn(trial, page)
}

/// What the user looks at.
#[derive(Drop)]
pub struct Looking {
    /// Which legal moves `plays more` lists.
    pub plays: Listing,
    /// The move that was tried last, and is not sent.
    pub(crate) trial: Option<Trial>,
}

impl Looking {
    /// Nothing was looked at.
    pub fn new() -> Looking
        ensures { result.trial ≡ None }
    {
        Looking {
            plays: Listing::of_all(),
            trial: None,
        }
    }

    /// What is left of it when its board goes: the move that was tried.
    pub fn kept(self) -> Looking
        ensures { result ≡ kept_looking self }
    {
        Looking {
            plays: Listing::of_all(),
            trial: self.trial,
        }
    }

    /// Lists legal moves of the board that is shown: all, those from a place, or those that follow what was listed.
    pub fn say_plays(
        &mut self,
        client: &Client,
        rest: &[u8],
        page: &mut Page<'_>,
    ) -> Result<(), AllocError>
        ensures { self.new.trial ≡ self.old.trial }
    {
        let Some(game) = client.game() else {
            return say_no_game(client, page);
        };
        let listing = match rest {
            b"" => Some(Listing::of_all()),
            b"more" => Some(self.plays),
            _ => Listing::from_place(rest, game, page.settings.numbers),
        };
        let Some(listing) = listing else {
            return page.say(WHICH_PLAYS);
        };
        let alloc = page.alloc;
        let sheet = Sheet {
            numbers: page.settings.numbers,
            columns: page.columns(),
            is_told: page.settings.words,
        };
        let mut rows = Vec::new(alloc);
        self.plays = append_plays(alloc, game, &sheet, listing, &mut rows)?;
        say_rows(rows.as_slice(), page)
    }

    /// Nothing is tried any more.
    pub fn forget_trial(&mut self)
        ensures { self.new.trial ≡ None }
    {
        self.trial = None;
    }

    /// Shows the board after a move that is tried, and how it is sent. The move is kept then.
    pub fn show_trial(&mut self, trial: Trial, page: &mut Page<'_>) -> Result<(), AllocError>
        ensures kept { OnOk result (self.new.trial ≡ Some trial) }
        ensures shown { OnOk result (ShowsTrial page.old.settings trial page.old.text.items page.new.text.items) }
    {
        append_trial(&trial, page)?;
        self.trial = Some(trial);
        Ok(())
    }

    /// The move that was tried, if it was tried on the board that is shown.
    fn tried_now(&self, client: &Client) -> Option<Trial>
        ensures { (t : Talk) → StandsAfter client.now t
            → (x : AnyTrial) → (result ≡ Some x) ↔ IsTriedNow t self.now.trial x }
    {
        let trial = self.trial?;
        let game = client.game()?;
        if trial.is_on(game) { Some(trial) } else { None }
    }

    /// Asks to send the move that was tried, if it was tried on the board that is shown. A user who is in no match is
    /// told so.
    pub fn send_tried(
        &self,
        client: &Client,
        is_free: bool,
        line: &mut TypedLine,
        page: &mut Page<'_>,
    ) -> Result<Wish, AllocError>
        ensures untaken { SendsUntaken client.now line.new.items result }
        ensures decides { SendsNoDecision client.now line.new.items result }
        ensures tried { IfOk result (λ wish. (t : Talk) → StandsAfter client.now t
            → SendsTried t self.now.trial wish line.new.items) }
        ensures quits { NeverQuits result }
    {
        match self.tried_now(client) {
            Some(trial) => {
                read_command_is_exact();
                set_line(line, trial.command().as_str().as_bytes());
                Ok(Wish::Say)
            }
            None if is_free => {
                say_no_game(client, page)?;
                Ok(Wish::Answered)
            }
            None => {
                page.say(NOTHING_TRIED)?;
                Ok(Wish::Answered)
            }
        }
    }
}
