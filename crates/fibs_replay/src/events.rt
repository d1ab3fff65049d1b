//! Events, read from the lines of a script.
ghost use Rattle.std.specs.Prelude.{◌≡◌, ◌↔◌, false, codes, Some, IfSome, IfNone, option_map};
ghost use Rattle.std.specs.Str.{bytes_eq};
ghost use Rattle.fibs_fields.specs.Board.{BoardText};
ghost use Rattle.fibs_fields.specs.Decimal.{decimal_up_to};
ghost use Rattle.fibs_fields.specs.StoredBoard.{fields_of};
ghost use Rattle.fibs_model.specs.EventOf.{event_of};
ghost use Rattle.fibs_model.specs.Events.{Event as EventValue, Click, Plain, Deliver, Lose, Own};
ghost use Rattle.fibs_commands.specs.CommandReading.{read_command};
ghost use Rattle.fibs_commands.specs.PlainReading.{read_plain};
ghost use Rattle.fibs_position.specs.declared.direction.Direction.TheVariants.{Down};
ghost use Rattle.fibs_replay.specs.EventLines.{SaysEvent};
ghost use Rattle.fibs_replay.specs.EventReading.{alone_in, board_in, event_in, joined_in, of_roll, serving_in};
ghost use Rattle.fibs_replay.specs.Scripts.{IsNoBoard, IsNoEvent};

use crate::laws::events_are_exact;
use fibs_fields::boards::Board;
use fibs_messages::{read_decimal, split};
use fibs_model::Event;
use fibs_position::Direction;
use fibs_session::{read_command, read_plain};

/// The number of a connection, or how many bytes.
fn read_count(text: &[u8]) -> Option<usize>
    ensures { result ≡ decimal_up_to 4294967295 text.now }
{
    let count = read_decimal(text, 4_294_967_295)?;
    Some(count as usize)
}

/// The number of a die. The line does not say which numbers are dice.
fn read_die(text: &[u8]) -> Option<u8>
    ensures { result ≡ decimal_up_to 255 text.now }
{
    let die = read_decimal(text, 255)?;
    Some(die as u8)
}

/// The board that a line says; None if it says none.
pub fn read_board(line: &[u8]) -> Option<Board>
    ensures some { IfSome result (λ board. BoardText (fields_of board) line.now) }
    ensures none { IfNone result (IsNoBoard line.now) }
    ensures value { option_map fields_of result ≡ board_in line.now }
{
    fibs_messages::laws::reading_is_exact();
    fibs_messages::laws::each_line_has_one_reading();
    fibs_messages::laws::spellings_are_lines();
    Board::read(line).ok()
}

/// Whether a text is this word.
fn is(text: &[u8], word: &[u8]) -> bool
    ensures { result ≡ bytes_eq text.now word.now }
{
    text == word
}

/// A connection and two dice.
#[tactic(auto, unfolding(crate::specs::EventReading::serving_in))]
fn read_serving<'a>(rest: &[u8]) -> Option<Event<'a>>
    ensures { option_map event_of result ≡ serving_in rest.now }
{
    let (conn, dice) = split(rest, b' ');
    let conn = read_count(conn)?;
    let (one, other) = split(dice?, b' ');
    let one = read_die(one)?;
    let other = read_die(other?)?;
    Some(Event::Serve {
        conn,
        dice: [one, other],
    })
}

/// A word alone.
#[tactic(auto, unfolding(crate::specs::EventReading::alone_in))]
fn read_alone<'a>(word: &[u8]) -> Option<Event<'a>>
    ensures { option_map event_of result ≡ alone_in word.now }
{
    if is(word, b"open") {
        Some(Event::Open)
    } else if is(word, b"repeat") {
        Some(Event::Repeat)
    } else if is(word, b"text") {
        Some(Event::Text(b""))
    } else {
        None
    }
}

/// An event of the standing order, which is one to roll.
#[tactic(auto, unfolding(crate::specs::EventReading::of_roll))]
fn read_roll<'a>(event: Event<'a>, rest: &[u8]) -> Option<Event<'a>>
    ensures { option_map event_of result ≡ of_roll (event_of event.entry) rest.now }
{
    if is(rest, b"roll") { Some(event) } else { None }
}

/// A decision of the player.
fn read_click<'a>(rest: &[u8]) -> Option<Event<'a>>
    ensures { option_map event_of result ≡ option_map (λ d. Click d) (read_command Down rest.now) }
{
    let decision = read_command(rest, Direction::Down)?;
    Some(Event::Click(decision))
}

/// Another command of the player.
fn read_said(rest: &[u8]) -> Option<Event<'_>>
    ensures { option_map event_of result ≡ option_map (λ p. Plain p) (read_plain rest.now) }
{
    let plain = read_plain(rest)?;
    Some(Event::Plain(plain))
}

/// How many bytes reach the client.
fn read_delivery<'a>(rest: &[u8]) -> Option<Event<'a>>
    ensures { option_map event_of result ≡ option_map (λ n. Deliver n) (decimal_up_to 4294967295 rest.now) }
{
    let count = read_count(rest)?;
    Some(Event::Deliver(count))
}

/// A loss, and how many bytes reach the server.
fn read_loss<'a>(rest: &[u8]) -> Option<Event<'a>>
    ensures { option_map event_of result ≡ option_map (λ k. Lose k) (decimal_up_to 4294967295 rest.now) }
{
    let count = read_count(rest)?;
    Some(Event::Lose(count))
}

/// The server's new board.
fn read_own<'a>(rest: &[u8]) -> Option<Event<'a>>
    ensures { option_map event_of result ≡ option_map (λ b. Own b) (board_in rest.now) }
{
    let board = read_board(rest)?;
    Some(Event::Own(board))
}

/// A word, and what follows the space after it.
#[tactic(auto, unfolding(crate::specs::EventReading::joined_in))]
fn read_joined<'a>(word: &[u8], rest: &'a [u8]) -> Option<Event<'a>>
    ensures { option_map event_of result ≡ joined_in word.now rest.now }
{
    if is(word, b"click") {
        read_click(rest)
    } else if is(word, b"plain") {
        read_said(rest)
    } else if is(word, b"order") {
        read_roll(Event::Order, rest)
    } else if is(word, b"withdraw") {
        read_roll(Event::Withdraw, rest)
    } else {
        read_outside(word, rest)
    }
}

/// The same if the word is none of the player's.
#[tactic(auto, unfolding(crate::specs::EventReading::joined_in))]
fn read_outside<'a>(word: &[u8], rest: &'a [u8]) -> Option<Event<'a>>
    requires click { bytes_eq word.now (codes "click") ≡ false }
    requires plain { bytes_eq word.now (codes "plain") ≡ false }
    requires order { bytes_eq word.now (codes "order") ≡ false }
    requires withdraw { bytes_eq word.now (codes "withdraw") ≡ false }
    ensures { option_map event_of result ≡ joined_in word.now rest.now }
{
    if is(word, b"deliver") {
        read_delivery(rest)
    } else if is(word, b"lose") {
        read_loss(rest)
    } else if is(word, b"serve") {
        read_serving(rest)
    } else if is(word, b"own") {
        read_own(rest)
    } else if is(word, b"text") {
        Some(Event::Text(rest))
    } else {
        None
    }
}

/// The event that a line of a script says, without its line end; None if it says none.
///
/// The first word says the event, and its parts follow, each after one space: `open`, `click COMMAND` in the place
/// numbers of a player who goes from 24 down to 1, `plain COMMAND`, `order roll`, `withdraw roll`, `deliver N`,
/// `lose K`, `serve C D1 D2`, `own BOARD`, `repeat`, `text BYTES`, in which all that follows the space is the text,
/// which is empty if there is no space. N, K and C are decimals without leading zero up to 4,294,967,295, D1 and D2 up
/// to 255.
#[tactic(auto, unfolding(crate::specs::EventReading::event_in))]
pub(crate) fn read_event(line: &[u8]) -> Option<Event<'_>>
    ensures none { IfNone result (IsNoEvent line.now) }
    ensures exact { (event : EventValue) → (option_map event_of result ≡ Some event) ↔ SaysEvent line.now event }
    ensures value { option_map event_of result ≡ event_in line.now }
{
    events_are_exact();
    let (word, rest) = split(line, b' ');
    match rest {
        None => read_alone(word),
        Some(rest) => read_joined(word, rest),
    }
}
