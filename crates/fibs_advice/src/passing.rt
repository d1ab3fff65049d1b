//! Decisions that the client refuses, and that go to the server all the same, since it has asked for them.
ghost use Rattle.std.specs.Prelude.{◌≡◌, true, false, IsTrue};
ghost use Rattle.fibs_position.specs.DecisionValue.{accept, decision_of};
ghost use Rattle.fibs_session.specs.History.Machine.{Talk, answer_now, unconfirmed_now};
ghost use Rattle.fibs_session.specs.Calls.Standing.{StandsAfter};
ghost use Rattle.fibs_advice.specs.Passing.{GoesPast, Passes, goes, is_an_offer, is_answer, is_behind, is_forbidden, is_greeted, is_open_in, may_answer, may_renew};
ghost use Rattle.fibs_advice.specs.Sending.{IsAnother};
ghost use Rattle.fibs_advice.specs.Standings.{repeats};

use crate::offers::is_taken;
use crate::standing::Standing;
use fibs_position::laws::decisions_are_their_values;
use fibs_position::{Decision, Disallowed};
use fibs_session::{Client, Refusal};

/// How a decision that is typed goes.
#[derive(Clone, Copy, Debug, PartialEq, Eq)]
pub enum Passing {
    /// The client answers it.
    Asks,
    /// It goes past the client: it is the one that waits, once more.
    Again,
    /// It goes past the client, on the server's word.
    OnWord,
    /// Another one might be made in place of the one that waits, and the rules forbid this one.
    Forbidden(Disallowed),
}

/// Whether a decision is an answer to an offer.
fn is_answer(decision: &Decision) -> bool
    ensures { result ≡ is_answer (decision_of decision.now) }
{
    matches!(decision, Decision::Accept | Decision::Reject)
}

/// Whether a decision is an offer, which changes no board.
pub(crate) fn is_offer(decision: &Decision) -> bool
    ensures { result ≡ is_an_offer (decision_of decision.now) }
{
    matches!(decision, Decision::Double | Decision::Resign(_))
}

/// Whether the server has greeted the user: it no longer takes a line for a name or a password.
fn is_greeted(client: &Client) -> bool
    ensures { (t : Talk) → StandsAfter client.now t → result ≡ is_greeted (answer_now t accept) }
{
    !matches!(
        client.refusal(&Decision::Accept),
        Some(Refusal::Offline | Refusal::NotReady)
    )
}

/// Whether an offer is answered of which texts alone tell.
pub(crate) fn may_answer(client: &Client, standing: Standing) -> bool
    ensures { (t : Talk) → StandsAfter client.now t → result ≡ may_answer t standing }
{
    standing.owes_answer()
        && is_greeted(client)
        && !is_taken(client, &Decision::Accept)
        && !is_taken(client, &Decision::Reject)
}

/// Whether the client refuses a decision since another one waits.
fn is_behind(client: &Client, decision: &Decision) -> bool
    ensures { (t : Talk) → StandsAfter client.now t → result ≡ is_behind (answer_now t (decision_of decision.now)) }
{
    matches!(client.refusal(decision), Some(Refusal::Waiting))
}

/// Whether the server has said no to the decision that waits, or has shown its board again.
fn is_open(client: &Client, standing: Standing) -> bool
    ensures { (t : Talk) → StandsAfter client.now t → result ≡ is_open_in standing (unconfirmed_now t) }
{
    match client.waiting() {
        None => false,
        Some(asked) => standing.is_open_again(is_offer(&asked.decision)),
    }
}

/// Whether a decision may be made in place of the one that waits.
fn may_renew(client: &Client, standing: Standing, decision: &Decision) -> bool
    ensures { (t : Talk) → StandsAfter client.now t → result ≡ may_renew t standing (decision_of decision.now) }
{
    is_behind(client, decision) && is_open(client, standing)
}

/// Whether a decision is not the one that waits.
pub(crate) fn is_another(client: &Client, decision: &Decision) -> bool
    ensures is { IsTrue result → (t : Talk) → StandsAfter client.now t →
        IsAnother (unconfirmed_now t) (decision_of decision.now) }
    ensures only { (t : Talk) → StandsAfter client.now t → IsAnother (unconfirmed_now t) (decision_of decision.now) →
        result ≡ true }
{
    match client.waiting() {
        None => true,
        Some(asked) => !decisions_are_their_values(&asked.decision, decision),
    }
}

/// How a decision that may be made goes in place of the one that waits: that one goes once more only if its board came
/// again.
fn renewed(client: &Client, standing: Standing, decision: &Decision) -> Passing
    ensures sent { goes result ≡ true → (t : Talk) → StandsAfter client.now t → repeats standing ≡ false →
        IsAnother (unconfirmed_now t) (decision_of decision.now) }
    ensures taken { (t : Talk) → StandsAfter client.now t →
        (repeats standing ≡ false → IsAnother (unconfirmed_now t) (decision_of decision.now)) → goes result ≡ true }
    ensures allowed { is_forbidden result ≡ false }
{
    if is_another(client, decision) {
        Passing::OnWord
    } else if standing.repeats() {
        Passing::Again
    } else {
        Passing::Asks
    }
}

/// How a decision that is typed goes: past the client only if it answers an offer of which texts tell, or is made in
/// place of one that waits, to which the server has said no, or whose board it has shown again.
pub fn passing_of(client: &Client, standing: Standing, decision: &Decision) -> Passing
    ensures { (t : Talk) → StandsAfter client.now t → Passes t standing (decision_of decision.now) result }
{
    if is_answer(decision) && may_answer(client, standing) {
        return Passing::OnWord;
    }
    if !may_renew(client, standing, decision) {
        return Passing::Asks;
    }
    match client.game() {
        None => Passing::Asks,
        Some(game) => match game.position().allows(decision) {
            Err(why) => Passing::Forbidden(why),
            Ok(()) => renewed(client, standing, decision),
        },
    }
}

/// Whether a decision goes past the client.
pub(crate) fn goes_past(client: &Client, standing: Standing, decision: &Decision) -> bool
    ensures is { IsTrue result → (t : Talk) → StandsAfter client.now t →
        GoesPast t standing (decision_of decision.now) }
    ensures only { (t : Talk) → StandsAfter client.now t → GoesPast t standing (decision_of decision.now) →
        result ≡ true }
{
    matches!(
        passing_of(client, standing, decision),
        Passing::Again | Passing::OnWord
    )
}
