//! What is advised in a state.
ghost use Rattle.std.specs.Prelude.{◌≡◌, ◌≢◌, true, false, None, Some, IfOk, IfSome, IsTrue, is_none};
ghost use Rattle.fibs_session.specs.History.Machine.{Talk, answer_now, shown_now, plain_refusal, unconfirmed_now};
ghost use Rattle.fibs_session.specs.History.Words.{Ask};
ghost use Rattle.fibs_fields.specs.Board.{BoardFields};
ghost use Rattle.fibs_position.specs.GameOf.{game_of};
ghost use Rattle.fibs_position.specs.Phases.{phase_of};
ghost use Rattle.fibs_position.specs.DecisionValue.{decision_of, roll};
ghost use Rattle.fibs_commands.specs.PlainOf.{plain_value};
ghost use Rattle.fibs_session.specs.Calls.Standing.{StandsAfter};
ghost use Rattle.fibs_advice.specs.Advised.{Advises, AreWays, MaySay, SendsWays, is_deciding};
ghost use Rattle.fibs_advice.specs.Passing.{AreRenewed, IsRenewed, is_an_offer, is_greeted, may_answer};
ghost use Rattle.fibs_advice.specs.Sending.{MaySend, rules_allow};
ghost use Rattle.fibs_advice.specs.RowStates.{is_declined, is_double, is_off_table, is_so_in, may_double, may_have_turn, may_wait, must_speak, own_row, plays_himself};
ghost use Rattle.fibs_advice.specs.Rows.{answers, is_of_game, names_way_on, opens_again, plain_in, rolls_alone, shows_offers};
ghost use Rattle.fibs_advice.specs.Standings.{comes_first, hides_offers, is_unsure, sends};
ghost use Rattle.fibs_advice.specs.Offers.{may_decide};

use crate::offers::{Offers, is_taken, offered};
use crate::passing::{goes_past, is_another, is_offer, may_answer};
use crate::row::Row;
use crate::situation::Situation;
use crate::standing::Standing;
use fibs_commands::Plain;
use fibs_position::{Decision, GameBoard, Phase, Position};
use fibs_session::{Client, Refusal};
use std::alloc::{AllocError, Global};

/// What is advised.
#[derive(Clone, Copy)]
pub struct Advice {
    /// What is said.
    pub row: Row,
    /// What the client takes now.
    pub offers: Offers,
    /// Whether `toggle automove` turns something off now.
    pub automove: bool,
    /// Whether `toggle greedy` does.
    pub greedy: bool,
    /// A decision that goes as it is.
    pub send: Option<Decision>,
    /// Another one.
    pub other: Option<Decision>,
    /// The decision that was sent, and that no board has confirmed.
    pub asked: Option<Decision>,
}

/// Decisions by which a game goes on: none, one or two.
type Ways = (Option<Decision>, Option<Decision>);

/// What is known beside the conversation.
#[derive(Clone, Copy)]
pub struct Aside {
    /// Whether the opponent is listed.
    pub is_listed: bool,
    /// Whether the server had time to answer the login.
    pub had_time: bool,
}

/// Whether the rules allow a decision on the board that is shown.
pub(crate) fn is_allowed(client: &Client, decision: &Decision) -> bool
    ensures is { IsTrue result → (t : Talk) → StandsAfter client.now t →
        rules_allow (shown_now t) (decision_of decision.now) ≡ true }
    ensures only { (t : Talk) → StandsAfter client.now t →
        rules_allow (shown_now t) (decision_of decision.now) ≡ true → result ≡ true }
{
    match client.game() {
        None => false,
        Some(game) => game.position().allows(decision).is_ok(),
    }
}

/// Whether a decision may go as it is.
fn may_send(client: &Client, standing: Standing, decision: &Decision) -> bool
    ensures is { IsTrue result → (t : Talk) → StandsAfter client.now t →
        MaySend t standing (decision_of decision.now) }
    ensures only { (t : Talk) → StandsAfter client.now t → MaySend t standing (decision_of decision.now) →
        result ≡ true }
{
    !is_taken(client, decision)
        && is_allowed(client, decision)
        && (standing.repeats() || is_another(client, decision))
}

/// A decision, if it may go as it is.
fn sendable(client: &Client, standing: Standing, decision: Option<Decision>) -> Option<Decision>
    ensures may { IfSome result (λ d. (t : Talk) → StandsAfter client.now t → MaySend t standing (decision_of d)) }
    ensures double { is_double result ≡ true → is_double decision ≡ true }
    ensures only { (t : Talk) → StandsAfter client.now t →
        IfSome decision (λ d. MaySend t standing (decision_of d)) → result ≡ decision }
{
    decision.filter(|decision| may_send(client, standing, decision))
}

/// Whether the client takes a line now.
fn is_plain_taken(client: &Client, plain: &Plain<'_>) -> bool
    ensures { (t : Talk) → StandsAfter client.now t →
        result ≡ is_none (plain_refusal t (plain_value plain.now)) }
{
    client.plain_refusal(plain).is_none()
}

/// Whether the client takes the line that a row names, if it names one.
fn is_row_taken(client: &Client, row: Row) -> bool
    ensures is { IsTrue result → (t : Talk) → StandsAfter client.now t →
        IfSome (plain_in row) (λ p. plain_refusal t p ≡ None) }
    ensures only { (t : Talk) → StandsAfter client.now t → IfSome (plain_in row) (λ p. plain_refusal t p ≡ None) →
        result ≡ true }
{
    row.plain()
        .is_none_or(|plain| is_plain_taken(client, &plain))
}

/// Whether a row is what is to be said: what the client takes now is not left out.
fn says_offers(standing: Standing, offers: &Offers, row: Row) -> bool
    ensures shown { IsTrue result →
        hides_offers standing ≡ false → may_decide offers.now ≡ true → shows_offers row ≡ true }
    ensures named { IsTrue result →
        is_unsure standing ≡ true → may_decide offers.now ≡ true → names_way_on row ≡ true }
    ensures only { (hides_offers standing ≡ false → may_decide offers.now ≡ true → shows_offers row ≡ true) →
        (is_unsure standing ≡ true → may_decide offers.now ≡ true → names_way_on row ≡ true) → result ≡ true }
{
    !offers.may_decide()
        || ((standing.hides_offers() || row.shows_offers())
            && (!standing.is_unsure() || row.names_way_on()))
}

/// Whether a decision goes past the client, if there is one.
fn is_renewed(client: &Client, standing: Standing, way: Option<Decision>) -> bool
    ensures is { IsTrue result → (t : Talk) → StandsAfter client.now t → IsRenewed t standing way }
    ensures only { (t : Talk) → StandsAfter client.now t → IsRenewed t standing way → result ≡ true }
{
    way.is_none_or(|decision| goes_past(client, standing, &decision))
}

/// Whether each of these goes past the client.
fn are_renewed(client: &Client, standing: Standing, ways: Ways) -> bool
    ensures is { IsTrue result → (t : Talk) → StandsAfter client.now t → AreRenewed t standing ways.0 ways.1 }
    ensures only { (t : Talk) → StandsAfter client.now t → AreRenewed t standing ways.0 ways.1 → result ≡ true }
{
    is_renewed(client, standing, ways.0) && is_renewed(client, standing, ways.1)
}

/// Whether all that a row names may be typed.
fn is_true(client: &Client, standing: Standing, offers: &Offers, ways: Ways, row: Row) -> bool
    ensures rolls { IsTrue result → rolls_alone row ≡ true → offers.now.roll ≡ true }
    ensures plain { IsTrue result → (t : Talk) → StandsAfter client.now t →
        IfSome (plain_in row) (λ p. plain_refusal t p ≡ None) }
    ensures again { IsTrue result → opens_again row ≡ true → (t : Talk) → StandsAfter client.now t →
        AreRenewed t standing ways.0 ways.1 }
    ensures answer { IsTrue result → answers row ≡ true → (t : Talk) → StandsAfter client.now t →
        may_answer t standing ≡ true }
    ensures only { (t : Talk) → StandsAfter client.now t → MaySay t standing offers.now ways.0 ways.1 row →
        result ≡ true }
{
    (!row.rolls_alone() || offers.roll)
        && is_row_taken(client, row)
        && (!row.opens_again() || are_renewed(client, standing, ways))
        && (!row.answers() || may_answer(client, standing))
}

/// A row, if it is true and leaves nothing out that the client takes now; else what the client takes.
fn true_row(client: &Client, standing: Standing, offers: &Offers, ways: Ways, row: Row) -> Row
    ensures shown { hides_offers standing ≡ false → may_decide offers.now ≡ true → shows_offers result ≡ true }
    ensures named { is_unsure standing ≡ true → may_decide offers.now ≡ true → names_way_on result ≡ true }
    ensures rolls { rolls_alone result ≡ true → offers.now.roll ≡ true }
    ensures plain { (t : Talk) → StandsAfter client.now t →
        IfSome (plain_in result) (λ p. plain_refusal t p ≡ None) }
    ensures again { opens_again result ≡ true → (t : Talk) → StandsAfter client.now t →
        AreRenewed t standing ways.0 ways.1 }
    ensures answer { answers result ≡ true → (t : Talk) → StandsAfter client.now t → may_answer t standing ≡ true }
    ensures row { result ≢ Row.Offers → result ≡ row }
    ensures so { is_so_in row standing ≡ true → is_so_in result standing ≡ true }
    ensures loud { row ≢ Row.Nothing → result ≢ Row.Nothing }
    ensures kept { (t : Talk) → StandsAfter client.now t → MaySay t standing offers.now ways.0 ways.1 row →
        result ≡ row }
{
    if is_true(client, standing, offers, ways, row) && says_offers(standing, offers, row) {
        row
    } else {
        Row::Offers
    }
}

/// A legal move of a board: the one that waits, if the rules allow it there too.
fn move_on(
    alloc: Global,
    client: &Client,
    position: &Position,
) -> Result<Option<Decision>, AllocError>
    ensures { IfOk result (λ way. is_double way ≡ false) }
{
    if let Some(asked) = client.waiting() {
        if let Decision::Move(_) = asked.decision {
            if position.allows(&asked.decision).is_ok() {
                return Ok(Some(asked.decision));
            }
        }
    }
    let plays = position.plays(alloc)?;
    Ok(plays.first().copied().map(Decision::Move))
}

/// The decisions by which a game goes on, on a board. A double is not advised if the server has refused one in this
/// game, or if the opponent has an offer before him.
fn ways_on(
    alloc: Global,
    client: &Client,
    game: &GameBoard,
    situation: &Situation,
) -> Result<Ways, AllocError>
    ensures first { IfOk result (λ ways. is_double ways.0 ≡ false) }
    ensures second { IfOk result (λ ways. is_double ways.1 ≡ true → may_double situation.now ≡ true) }
    ensures ways { IfOk result (λ ways.
        AreWays (phase_of (game_of game.now)) (may_double situation.now) ways.0 ways.1) }
{
    let doubles = !situation.refuses_double() && situation.standing != Standing::Offered;
    match game.phase() {
        Phase::RollOrDouble if doubles => Ok((Some(Decision::Roll), Some(Decision::Double))),
        Phase::RollOrDouble => Ok((Some(Decision::Roll), None)),
        Phase::AnswerDouble => Ok((Some(Decision::Accept), Some(Decision::Reject))),
        Phase::Move => Ok((move_on(alloc, client, game.position())?, None)),
        Phase::Over | Phase::OpponentActs | Phase::Passing => Ok((None, None)),
    }
}

/// Whether a state asks for lines that go as they are, while a decision waits. A decision that was refused, and is no
/// offer, was made on a board that is no longer the game's: that board is asked for first.
fn sends(standing: Standing, waiting: &Decision) -> bool
    ensures { result ≡ sends standing (is_an_offer (decision_of waiting.now)) }
{
    match standing {
        Standing::Same | Standing::Back => true,
        Standing::Refused | Standing::Offered => is_offer(waiting),
        _ => false,
    }
}

/// The decisions that are advised, before each of them is tested.
fn ways(alloc: Global, client: &Client, situation: &Situation) -> Result<Ways, AllocError>
    ensures first { IfOk result (λ ways. is_double ways.0 ≡ false) }
    ensures second { IfOk result (λ ways. is_double ways.1 ≡ true → may_double situation.now ≡ true) }
    ensures ways { IfOk result (λ ways. (t : Talk) → StandsAfter client.now t → (b : BoardFields) →
        shown_now t ≡ Some b → (ask : Ask) → unconfirmed_now t ≡ Some ask →
        sends situation.now.standing (is_an_offer ask.1) ≡ true →
        AreWays (phase_of b) (may_double situation.now) ways.0 ways.1) }
{
    let (Some(asked), Some(game)) = (client.waiting(), client.game()) else {
        return Ok((None, None));
    };
    if sends(situation.standing, &asked.decision) {
        ways_on(alloc, client, game, situation)
    } else {
        Ok((None, None))
    }
}

/// Whether the user decides on the board that is shown.
fn is_deciding(client: &Client) -> bool
    ensures { (t : Talk) → StandsAfter client.now t → result ≡ is_deciding (shown_now t) }
{
    let Some(game) = client.game() else {
        return false;
    };
    matches!(
        game.phase(),
        Phase::RollOrDouble | Phase::AnswerDouble | Phase::Move
    )
}

/// What is said if nothing waits: what the client takes; and if no board is shown, how one is.
fn row_of_game(client: &Client) -> Row
    ensures game { is_of_game result ≡ true }
    ensures loud { result ≢ Row.Nothing }
    ensures so { (s : Standing) → may_have_turn s ≡ true → is_so_in result s ≡ true }
{
    if client.game().is_some() {
        Row::Offers
    } else {
        Row::Turn
    }
}

/// What is said of a decision that was refused, or that waits though its board came again.
fn row_of_refused(client: &Client, standing: Standing, has_way: bool) -> Row
    ensures game { is_of_game result ≡ true }
    ensures so { is_declined standing ≡ true → is_so_in result standing ≡ true }
{
    if client.waiting().is_none() {
        return row_of_game(client);
    }
    match standing {
        Standing::Refused if has_way => Row::Declined,
        Standing::Same if has_way => Row::Same,
        _ if is_deciding(client) => Row::Refused,
        _ => Row::Nothing,
    }
}

/// What is said if a decision waits of which nothing was heard, or if none waits: what the client takes.
fn row_of_waiting(client: &Client) -> Row
    ensures game { is_of_game result ≡ true }
    ensures loud { result ≢ Row.Nothing }
    ensures so { (s : Standing) → may_wait s ≡ true → is_so_in result s ≡ true }
{
    if client.waiting().is_some() {
        Row::Waits
    } else {
        Row::Offers
    }
}

/// What is said of a match that was resumed: that a decision waits, if one does.
fn row_of_resumed(client: &Client) -> Row
    ensures game { is_of_game result ≡ true }
    ensures so { (s : Standing) → may_wait s ≡ true → is_so_in result s ≡ true }
    ensures none { result ≢ Row.Offers }
{
    if client.waiting().is_some() {
        Row::Waits
    } else {
        Row::Nothing
    }
}

/// What is said if the server has said that it is the user's turn: what the client takes, else that the board shows it.
fn row_of_turn(offers: &Offers) -> Row
    ensures game { is_of_game result ≡ true }
    ensures loud { result ≢ Row.Nothing }
    ensures so { (s : Standing) → may_have_turn s ≡ true → is_so_in result s ≡ true }
{
    if offers.may_decide() {
        Row::Offers
    } else {
        Row::Turn
    }
}

/// What is said after the user has declined an offer to resign, or a game has begun: if it is his turn, its board is
/// still to come.
fn row_of_continued(client: &Client, is_due: bool) -> Row
    ensures game { is_of_game result ≡ true }
    ensures so { (s : Standing) → may_have_turn s ≡ true → may_wait s ≡ true → is_so_in result s ≡ true }
{
    if is_due {
        Row::Turn
    } else if client.waiting().is_some() {
        Row::Waits
    } else {
        Row::Nothing
    }
}

/// What is said in a game.
fn row_in_game(client: &Client, situation: &Situation, offers: &Offers, has_way: bool) -> Row
    ensures game { is_of_game result ≡ true }
    ensures so { is_so_in result situation.now.standing ≡ true }
    ensures own { (row : Row) → own_row situation.now.standing ≡ Some row → result ≡ row }
    ensures none { result ≡ Row.Offers → own_row situation.now.standing ≡ None }
    ensures loud { must_speak situation.now.standing ≡ true → result ≢ Row.Nothing }
{
    let standing = situation.standing;
    match standing {
        Standing::Resigned => Row::Resigns,
        Standing::Conceded => Row::Concedes,
        Standing::Owed => Row::Owes,
        Standing::Unsettled => Row::Unsettled,
        Standing::Unanswered => Row::Unanswered,
        Standing::Offered => Row::Thinks,
        Standing::Doubled => Row::Doubles,
        Standing::Refused | Standing::Same => row_of_refused(client, standing, has_way),
        Standing::Back if has_way => Row::Back,
        Standing::Anew => row_of_resumed(client),
        Standing::Asked | Standing::Taken => row_of_waiting(client),
        Standing::Due => row_of_turn(offers),
        Standing::Answered => Row::Waits,
        Standing::Continued | Standing::Fresh => row_of_continued(client, situation.is_due()),
        Standing::Playing => row_of_game(client),
        _ => Row::Offers,
    }
}

/// What is said in a game, and of a double that was refused or accepted, if the user may double.
fn row_with_double(client: &Client, situation: &Situation, offers: &Offers, has_way: bool) -> Row
    ensures server { result ≢ Row.ServerPlays }
    ensures undoubled { result ≡ Row.Undoubled → offers.now.double ≡ true }
    ensures refused { result ≡ Row.Undoubled → situation.now.opponent.game.refuses_double ≡ true }
    ensures so { is_so_in result situation.now.standing ≡ true }
    ensures own { (row : Row) → own_row situation.now.standing ≡ Some row → result ≡ row }
    ensures loud { must_speak situation.now.standing ≡ true → result ≢ Row.Nothing }
    ensures absent { result ≢ Row.Absent }
    ensures saved { result ≢ Row.Saved }
    ensures login { result ≢ Row.NotLoggedIn }
{
    match row_in_game(client, situation, offers, has_way) {
        Row::Offers if offers.double && situation.refuses_double() => Row::Undoubled,
        // the board that is shown is one from before the double
        Row::Offers if offers.double && situation.standing == Standing::Taken => Row::Accepted,
        row => row,
    }
}

/// What is said of a match that is off the table.
fn row_of_saved(situation: &Situation, is_listed: bool) -> Row
    ensures server { result ≢ Row.ServerPlays }
    ensures undoubled { result ≢ Row.Undoubled }
    ensures so { is_off_table situation.now.standing ≡ true → is_so_in result situation.now.standing ≡ true }
    ensures invited { situation.now.standing ≡ Standing.Invited → result ≡ Row.Invited }
    ensures absent { result ≡ Row.Absent → is_listed ≡ false }
    ensures saved { result ≡ Row.Saved → is_listed ≡ true }
    ensures login { result ≢ Row.NotLoggedIn }
{
    match situation.standing {
        Standing::Invited => Row::Invited,
        Standing::Reopened => Row::Nothing,
        _ if situation.opponent.name.is_empty() => Row::Nothing,
        _ if is_listed => Row::Saved,
        _ => Row::Absent,
    }
}

/// Whether a state's row comes before that of a server that plays by itself.
fn comes_first(standing: Standing) -> bool
    ensures { result ≡ comes_first standing }
{
    matches!(
        standing,
        Standing::Resigned
            | Standing::Conceded
            | Standing::Owed
            | Standing::Gone
            | Standing::Reopened
            | Standing::Invited
            | Standing::Ended
            | Standing::Next
            | Standing::Joined
    )
}

/// What is said, before it is tested that all that it names may be typed. Why the client would refuse to roll says
/// whether it is logged in, and whether the server plays by itself.
fn row_of(
    client: &Client,
    situation: &Situation,
    aside: Aside,
    offers: &Offers,
    has_way: bool,
) -> Row
    ensures server { result ≡ Row.ServerPlays → comes_first situation.now.standing ≡ false }
    ensures undoubled { result ≡ Row.Undoubled → offers.now.double ≡ true }
    ensures refused { result ≡ Row.Undoubled → situation.now.opponent.game.refuses_double ≡ true }
    ensures so { is_so_in result situation.now.standing ≡ true }
    ensures loud { (t : Talk) → StandsAfter client.now t → is_greeted (answer_now t roll) ≡ true →
        must_speak situation.now.standing ≡ true → result ≢ Row.Nothing }
    ensures own { (t : Talk) → StandsAfter client.now t → plays_himself (answer_now t roll) ≡ true →
        situation.now.logs_in ≡ false → (row : Row) → own_row situation.now.standing ≡ Some row → result ≡ row }
    ensures absent { result ≡ Row.Absent → aside.is_listed ≡ false }
    ensures saved { result ≡ Row.Saved → aside.is_listed ≡ true }
    ensures login { result ≡ Row.NotLoggedIn → situation.now.logs_in ≡ true }
{
    let standing = situation.standing;
    match client.refusal(&Decision::Roll) {
        Some(Refusal::Offline) => return Row::Nothing,
        _ if situation.is_login_refused(client.unfinished(), aside.had_time) => {
            return Row::NotLoggedIn;
        }
        Some(Refusal::NotReady) => return Row::Nothing,
        Some(Refusal::ServerPlays) if !comes_first(standing) => return Row::ServerPlays,
        _ => {}
    }
    match standing {
        Standing::Free | Standing::Ended => Row::Nothing,
        Standing::Next => Row::Next,
        Standing::Joined => Row::Joined,
        Standing::Gone | Standing::Reopened | Standing::Invited => {
            row_of_saved(situation, aside.is_listed)
        }
        _ => row_with_double(client, situation, offers, has_way),
    }
}

/// What is advised: without `send` only what the client takes now, and what goes past it on the server's word; with
/// `send` only what it would refuse and the rules allow, and not the decision that waits, unless the server has shown
/// the board again on which that was made.
///
/// Errors: if memory runs out.
pub fn advised(
    alloc: Global,
    client: &Client,
    situation: &Situation,
    aside: Aside,
) -> Result<Advice, AllocError>
    ensures advises { IfOk result (λ a. (t : Talk) → StandsAfter client.now t → Advises t situation.now.standing a) }
    // If a state in a game has a row of its own, that is said, unless something that it names may not be typed.
    ensures own { IfOk result (λ a. (t : Talk) → StandsAfter client.now t → plays_himself (answer_now t roll) ≡ true →
        situation.now.logs_in ≡ false → (row : Row) → own_row situation.now.standing ≡ Some row →
        MaySay t situation.now.standing a.offers a.send a.other row → a.row ≡ row) }
    // While a decision waits, and the state asks for lines that go as they are, those are named that may go so.
    ensures sent { IfOk result (λ a. (t : Talk) → StandsAfter client.now t → (b : BoardFields) →
        shown_now t ≡ Some b → (ask : Ask) → unconfirmed_now t ≡ Some ask →
        sends situation.now.standing (is_an_offer ask.1) ≡ true →
        SendsWays t situation.now.standing (phase_of b) (may_double situation.now) a.send a.other) }
    // That the server refused a double is said only if it did.
    ensures refused { IfOk result (λ a.
        a.row ≡ Row.Undoubled → situation.now.opponent.game.refuses_double ≡ true) }
    // A double goes as it is only if the server has refused none in this game, and no offer is before the opponent.
    ensures double { IfOk result (λ a. is_double a.send ≡ false
        × (is_double a.other ≡ true → may_double situation.now ≡ true)) }
    // The opponent is called absent only if he is not listed, and a saved match is offered only if he is; a login is
    // called refused only if it was sent, and the server has not greeted the user.
    ensures absent { IfOk result (λ a. a.row ≡ Row.Absent → aside.is_listed ≡ false) }
    ensures saved { IfOk result (λ a. a.row ≡ Row.Saved → aside.is_listed ≡ true) }
    ensures login { IfOk result (λ a. a.row ≡ Row.NotLoggedIn → situation.now.logs_in ≡ true) }
{
    let standing = situation.standing;
    let offers = offered(alloc, client)?;
    let (first, second) = ways(alloc, client, situation)?;
    let send = sendable(client, standing, first);
    let other = sendable(client, standing, second);
    let has_way = send.is_some() || other.is_some();
    let row = row_of(client, situation, aside, &offers, has_way);
    Ok(Advice {
        row: true_row(client, standing, &offers, (send, other), row),
        offers,
        automove: is_plain_taken(client, &Plain::AutomoveOff),
        greedy: is_plain_taken(client, &Plain::GreedyOff),
        send,
        other,
        asked: client.waiting().map(|asked| asked.decision),
    })
}
