//! Lines that go to the server past the client: by the word `send`, and decisions, on the server's word.
ghost use Rattle.std.specs.Prelude.{◌≡◌, ◌++◌, IfOk, OnOk, codes, is_some, option_map};
ghost use Rattle.std.specs.Str.{str_eq_ignore_ascii_case};
ghost use Rattle.fibs_position.specs.DecisionValue.{decision_of};
ghost use Rattle.fibs_position.specs.GameOf.{game_of};
ghost use Rattle.fibs_session.specs.History.Allows.{refusal_of};
ghost use Rattle.fibs_session.specs.History.Machine.{Talk, answer_now, shown_now};
ghost use Rattle.fibs_session.specs.Calls.Standing.{StandsAfter};
ghost use Rattle.fibs_session.specs.Typing.{decided, typed_by};
ghost use Rattle.fibs_advice.specs.Doubling.{NamesNoDouble};
ghost use Rattle.fibs_advice.specs.Moved.{spelled_in};
ghost use Rattle.fibs_terminal.specs.Asking.{SendsUntaken};
ghost use Rattle.fibs_terminal.specs.Leaving.{NeverQuits};
ghost use Rattle.fibs_terminal.specs.Reasons.{NotesNoDouble, is_no_double};
ghost use Rattle.fibs_terminal.specs.Sending.{Decides, SaysWithout, says_send};

use crate::commands::set_line;
use crate::screen::Screen;
use fibs_advice::doubling::why_no_double;
use fibs_advice::passing::{Passing, passing_of};
use fibs_advice::rules::append_rule;
use fibs_advice::spelling::meant_moves::way_now;
use fibs_connect::typed_line::TypedLine;
use fibs_connect::wish::Wish;
use fibs_fields::split::split;
use fibs_position::laws::decisions_are_valid;
use fibs_position::{Decision, Direction, Disallowed, GameBoard, Numbers};
use fibs_session::laws::shown_is_read;
use fibs_session::typed::meant::read_typed_by;
use fibs_session::typed::taking::would_take;
use fibs_session::typed::typing::Typed;
use fibs_session::{Client, Refusal, decision_text};
use fibs_wording::environment::Page;
use std::alloc::AllocError;

/// What is said of `send` without a line.
const SEND_HELP: &[u8] = b"send LINE: LINE goes to the server as it is, unchecked.\n";

/// Whether a word is `send`, in any letters.
fn is_send(word: &[u8]) -> bool
    ensures { result ≡ str_eq_ignore_ascii_case word.now (codes "send") }
{
    word.eq_ignore_ascii_case(b"send")
}

/// What follows the word `send`, if a line begins with it, in any letters; empty if nothing does.
pub(crate) fn after_send(line: &[u8]) -> Option<&[u8]>
    ensures { is_some result ≡ says_send line.now }
{
    let (word, rest) = split(line.trim_ascii_start(), b' ');
    if is_send(word) {
        Some(rest.unwrap_or(b""))
    } else {
        None
    }
}

/// The decision that a typed line is by these numbers, if it is one.
pub(crate) fn decision_typed(client: &Client, numbers: Numbers, line: &[u8]) -> Option<Decision>
    ensures { (t : Talk) → StandsAfter client.now t →
        option_map decision_of result ≡ decided (typed_by numbers t line.now) }
{
    match read_typed_by(client, numbers, line) {
        Typed::Decision(decision) => Some(decision),
        Typed::Plain(_) | Typed::Order | Typed::Withdrawal | Typed::Unknown => None,
    }
}

/// Appends what is typed in place of a line: the decision that it is, by numbers by which the user goes this way.
fn append_as_typed(
    decision: &Option<Decision>,
    line: &[u8],
    way: Direction,
    text: &mut Vec<u8>,
) -> Result<(), AllocError>
    ensures { OnOk result (text.new.items ≡ text.old.items ++
        spelled_in way line.now (option_map decision_of decision.now)) }
{
    match decision {
        Some(decision) => text.extend_from_slice(decision_text(decision, way).as_bytes()),
        None => text.extend_from_slice(line),
    }
}

/// Says how a line is typed that the client would take: a decision in the numbers that the user reads.
fn say_without_send(client: &Client, line: &[u8], page: &mut Page<'_>) -> Result<(), AllocError>
    ensures { OnOk result ((t : Talk) → StandsAfter client.now t →
        SaysWithout page.old.settings.numbers t line.now page.old.text.items page.new.text.items) }
{
    // Laws, which cost nothing when they run.
    shown_is_read();
    decisions_are_valid();
    let way = way_now(client, page.settings.numbers);
    let decision = decision_typed(client, Numbers::TheServers, line);
    page.text.extend_from_slice(b"Type it without send: ")?;
    append_as_typed(&decision, line, way, &mut page.text)?;
    page.text.extend_from_slice(b"\n")?;
    Ok(())
}

/// Sends a line as it is, unless the client would take it.
pub(crate) fn send(
    client: &Client,
    rest: &[u8],
    line: &mut TypedLine,
    page: &mut Page<'_>,
) -> Result<Wish, AllocError>
    ensures sent { SendsUntaken client.now line.new.items result }
    ensures quits { NeverQuits result }
{
    if rest.is_empty() {
        page.say(SEND_HELP)?;
        return Ok(Wish::Answered);
    }
    set_line(line, rest);
    if would_take(client, line.as_slice()) {
        say_without_send(client, rest, page)?;
        return Ok(Wish::Answered);
    }
    Ok(Wish::Send)
}

/// The refusal of a decision that the rules forbid.
fn refusal_of(why: Disallowed) -> Refusal
    ensures { result ≡ refusal_of why }
{
    match why {
        Disallowed::NotYours => Refusal::NotYours,
        Disallowed::WrongKind => Refusal::WrongKind,
        Disallowed::IllegalPlay => Refusal::IllegalPlay,
    }
}

/// Appends why a double can't be made on a board, if it can't.
fn append_no_double(game: &GameBoard, rule: &mut Vec<u8>) -> Result<(), AllocError>
    ensures { OnOk result (NamesNoDouble (game_of game.now) rule.old.items rule.new.items) }
{
    match why_no_double(game) {
        None => Ok(()),
        Some(why) => rule.extend_from_slice(why.words()),
    }
}

/// Whether a decision is a double that the client refuses for what the board shows.
fn is_no_double(client: &Client, decision: &Decision) -> bool
    ensures { (t : Talk) → StandsAfter client.now t → result ≡
        is_no_double (decision_of decision.now) (answer_now t (decision_of decision.now)) }
{
    matches!(decision, Decision::Double)
        && matches!(
            client.refusal(decision),
            Some(Refusal::NotYours | Refusal::WrongKind)
        )
}

/// Keeps why a decision can't be made on the board, if it is a double that the client refuses for it.
fn note_no_double(
    client: &Client,
    decision: &Decision,
    rule: &mut Vec<u8>,
) -> Result<(), AllocError>
    ensures { OnOk result ((t : Talk) → StandsAfter client.now t → NotesNoDouble
        (is_no_double (decision_of decision.now) (answer_now t (decision_of decision.now))) (shown_now t)
        rule.old.items rule.new.items) }
{
    if !is_no_double(client, decision) {
        return Ok(());
    }
    match client.game() {
        None => Ok(()),
        Some(game) => append_no_double(game, rule),
    }
}

impl<'a> Screen<'a> {
    /// What a decision asks for: the client answers it; or it goes past the client, on the server's word; or it might,
    /// and the rules forbid it.
    pub(crate) fn decide(
        &mut self,
        client: &Client,
        decision: &Decision,
    ) -> Result<Wish, AllocError>
        ensures decides { IfOk result (λ wish. (t : Talk) → StandsAfter client.now t →
            Decides t self.old.memory.here.situation.standing (decision_of decision.now) wish) }
        ensures looking { self.new.memory.here.looking ≡ self.old.memory.here.looking }
        ensures quits { NeverQuits result }
    {
        note_no_double(client, decision, &mut self.memory.here.rule)?;
        let standing = self.memory.here.situation.standing;
        let passing = passing_of(client, standing, decision);
        self.memory.here.passing = passing;
        match passing {
            Passing::Asks => Ok(Wish::Say),
            Passing::Again | Passing::OnWord => Ok(Wish::Send),
            Passing::Forbidden(why) => {
                self.say_forbidden(client, decision, why)?;
                Ok(Wish::Answered)
            }
        }
    }

    /// Says why the rules forbid a decision: of a move or a double which rule it is.
    fn say_forbidden(
        &mut self,
        client: &Client,
        decision: &Decision,
        why: Disallowed,
    ) -> Result<(), AllocError>
        ensures { self.new.memory.here.looking ≡ self.old.memory.here.looking }
    {
        let numbers = self.page.settings.numbers;
        let rule = &mut self.memory.here.rule;
        match (decision, why, client.game()) {
            (Decision::Move(play), Disallowed::IllegalPlay, Some(game)) => {
                append_rule(game, numbers, play, rule)?
            }
            (Decision::Double, _, Some(game)) => append_no_double(game, rule)?,
            _ => {}
        }
        self.say_refused(refusal_of(why))
    }
}
