//! What may be decided now.
ghost use Rattle.std.specs.Prelude.{◌≡◌, ◌++◌, true, IfOk, IfSome, OnOk, is_none};
ghost use Rattle.fibs_position.specs.DecisionValue.{decision_of, move};
ghost use Rattle.fibs_rules.specs.PlayValue.{hops_of};
ghost use Rattle.fibs_session.specs.History.Machine.{Talk, shown_now};
ghost use Rattle.fibs_session.specs.Calls.Standing.{StandsAfter};
ghost use Rattle.fibs_session.specs.Typing.{shown_direction};
ghost use Rattle.fibs_advice.specs.Offers.{OffersNow, is_taken, may_decide, first_way, example_text, hint_words, hint_text};

use fibs_commands::decision_text;
use fibs_position::{Decision, Direction, Numbers, Play};
use fibs_session::Client;
use std::alloc::{AllocError, Global};

/// What may be decided now.
#[derive(Clone, Copy)]
pub struct Offers {
    /// To roll.
    pub roll: bool,
    /// To double.
    pub double: bool,
    /// To accept a double.
    pub accept: bool,
    /// To reject a double.
    pub reject: bool,
    /// To move: one of the legal moves.
    pub example: Option<Play>,
    /// Which way the player goes by the numbers of the board line.
    pub direction: Direction,
}

impl Offers {
    /// Whether something may be decided now.
    pub(crate) fn may_decide(&self) -> bool
        ensures { result ≡ may_decide self.now }
    {
        self.roll || self.double || self.accept || self.reject || self.example.is_some()
    }
}

/// The first decision that may be made: to roll, else to move.
pub(crate) fn first_way(roll: bool, example: Option<Play>) -> Option<Decision>
    ensures { result ≡ first_way roll example }
{
    match (roll, example) {
        (true, _) => Some(Decision::Roll),
        (false, None) => None,
        (false, Some(play)) => Some(Decision::Move(play)),
    }
}

/// Whether the client takes a decision now.
pub(crate) fn is_taken(client: &Client, decision: &Decision) -> bool
    ensures { (t : Talk) → StandsAfter client.now t → result ≡ is_taken t (decision_of decision.now) }
{
    client.refusal(decision).is_none()
}

/// The first legal move of the board that is shown, if the client takes it now.
fn example(alloc: Global, client: &Client) -> Result<Option<Play>, AllocError>
    ensures { IfOk result (λ found. (t : Talk) → StandsAfter client.now t →
        IfSome found (λ play. is_taken t (move (hops_of play)) ≡ true)) }
{
    let Some(game) = client.game() else {
        return Ok(None);
    };
    let plays = game.position().plays(alloc)?;
    match plays.first().copied() {
        Some(play) if is_taken(client, &Decision::Move(play)) => Ok(Some(play)),
        _ => Ok(None),
    }
}

/// The direction of the board that is shown. Without a board it is that of a player who goes down.
pub(crate) fn direction(client: &Client) -> Direction
    ensures { (t : Talk) → StandsAfter client.now t → result ≡ shown_direction (shown_now t) }
{
    match client.game() {
        None => Direction::Down,
        Some(game) => game.direction(),
    }
}

/// What may be decided now: what the client takes.
///
/// Errors: if memory runs out.
pub fn offered(alloc: Global, client: &Client) -> Result<Offers, AllocError>
    ensures { IfOk result (λ o. (t : Talk) → StandsAfter client.now t → OffersNow t o) }
{
    let example = example(alloc, client)?;
    Ok(Offers {
        roll: is_taken(client, &Decision::Roll),
        double: is_taken(client, &Decision::Double),
        accept: is_taken(client, &Decision::Accept),
        reject: is_taken(client, &Decision::Reject),
        example,
        direction: direction(client),
    })
}

/// That the player may roll, or answer a double.
fn hint_words(roll: bool, double: bool, accept: bool, reject: bool) -> &'static [u8]
    ensures { result.now ≡ hint_words roll double accept reject }
{
    match (roll, double, accept, reject) {
        (true, true, _, _) => b"Your turn: roll, or double.\n",
        (true, false, _, _) => b"Your turn: roll.\n",
        (false, _, true, _) => b"You are offered a double: accept, or reject.\n",
        (false, _, false, true) => b"You are offered a double: reject.\n",
        (false, _, false, false) => b"",
    }
}

/// Appends what may be decided, and how it is typed in these numbers; appends nothing if nothing may be decided.
pub(crate) fn append_offers(
    offers: &Offers,
    numbers: Numbers,
    text: &mut Vec<u8>,
) -> Result<(), AllocError>
    ensures { OnOk result (text.new.items ≡ text.old.items ++ hint_text numbers offers.now) }
{
    let words = hint_words(offers.roll, offers.double, offers.accept, offers.reject);
    text.extend_from_slice(words)?;
    append_example(numbers.way(offers.direction), offers.example, text)
}

/// Appends a move that may be made, if there is one.
fn append_example(
    way: Direction,
    example: Option<Play>,
    text: &mut Vec<u8>,
) -> Result<(), AllocError>
    ensures { OnOk result (text.new.items ≡ text.old.items ++ example_text way example) }
{
    match example {
        None => Ok(()),
        Some(play) => {
            let command = decision_text(&Decision::Move(play), way);
            text.extend_from_slice(b"Your move, as in: ")?;
            text.extend_from_slice(command.as_bytes())?;
            text.extend_from_slice(b"\n")
        }
    }
}
