//! Events as C has them.

ghost use Rattle.std.specs.Prelude.{◌≡◌, ◌≤◌, ◌<◌, ◌+◌, ◌++◌, [], option_map};
ghost use Rattle.fibs_fields.specs.Bytes.{name_bytes};
ghost use Rattle.fibs_events.specs.declared.event.Event.TheVariants as E;
ghost use Rattle.fibs_c.specs.Records.EventOf.{AreEvents, IsEvent, IsMaybeEvent, IsNamed, IsOfMatch, IsOfPoints, IsOfSide, events_in, events_of, length_number, listed, name_in, offer_number, rolled_event, side_number, taken_event, turned_event, won_event, won_match_event, worth_number};

use crate::records::decisions::{DecisionRecord, of_kind, play_record};
use crate::records::text::put;
use fibs_events::event::{Event, Length, Offer, Side};
use fibs_events::happened::{Happened, Turned};
use fibs_messages::Name;
use fibs_position::{Play, Stake};

/// The length of an unlimited match, as a board has it.
const UNLIMITED: u32 = 9999;

/// A name.
#[repr(C)]
#[derive(Clone, Copy)]
pub struct NameRecord {
    /// How many bytes it has.
    pub len: usize,
    pub bytes: [u8; 64],
}

/// Something that has happened. What an event of its kind does not have is 0.
#[repr(C)]
#[derive(Clone, Copy)]
pub struct EventRecord {
    /// Points of the matches that the side has played.
    pub experience: u64,
    /// A player.
    pub name: NameRecord,
    /// Points that are offered, or won.
    pub points: u32,
    /// How many points a match is to; 9999 if it is unlimited.
    pub length: u32,
    /// The points of the user, and of the opponent.
    pub score: [u32; 2],
    /// In hundredths.
    pub rating: u32,
    /// A move.
    pub play: DecisionRecord,
    /// 1 to 23, in the order of the table of events.
    pub kind: u8,
    /// 1 the user, 2 the opponent.
    pub who: u8,
    /// 1 a single game, 2 a gammon, 3 a backgammon; 0 if that is not known.
    pub worth: u8,
    /// What was accepted: 1 a double, 2 that the other gives up.
    pub offer: u8,
    pub dice: [u8; 2],
}

/// What has happened by a line, in order.
#[repr(C)]
#[derive(Clone, Copy)]
pub struct HappenedRecord {
    /// How many events there are.
    pub count: usize,
    /// The events; those after them are of kind 0.
    pub events: [EventRecord; 7],
}

/// The number of a side.
fn side_number(who: Side) -> u8
    ensures { result ≡ side_number who }
{
    match who {
        Side::Own => 1,
        Side::Other => 2,
    }
}

/// To how many points a match is.
fn length_number(length: Length) -> u32
    ensures { result ≡ length_number length }
{
    match length {
        Length::Points(points) => points,
        Length::Unlimited => UNLIMITED,
    }
}

/// The number of an offer.
fn offer_number(offer: Offer) -> u8
    ensures { result ≡ offer_number offer }
{
    match offer {
        Offer::Double => 1,
        Offer::Resignation => 2,
    }
}

/// The number of what a game is worth.
fn worth_number(worth: Option<Stake>) -> u8
    ensures { result ≡ worth_number worth }
{
    match worth {
        None => 0,
        Some(Stake::Normal) => 1,
        Some(Stake::Gammon) => 2,
        Some(Stake::Backgammon) => 3,
    }
}

/// No name.
pub fn no_name() -> NameRecord
    ensures { name_in result ≡ [] }
{
    NameRecord {
        len: 0,
        bytes: [0; 64],
    }
}

/// A name as C has it.
pub fn name_record(name: &Name<'_>) -> NameRecord
    ensures { name_in result ≡ name_bytes name.now }
{
    let mut told = no_name();
    told.len = put(&mut told.bytes, name.bytes());
    told
}

/// An event of a kind that says nothing more; 0 means no event.
fn of_kind_alone(kind: u8) -> EventRecord
    ensures { result.kind ≡ kind }
{
    EventRecord {
        experience: 0,
        name: no_name(),
        points: 0,
        length: 0,
        score: [0, 0],
        rating: 0,
        play: of_kind(0),
        kind,
        who: 0,
        worth: 0,
        offer: 0,
        dice: [0, 0],
    }
}

/// An event of a kind that names a player.
fn named(kind: u8, name: &Name<'_>) -> EventRecord
    ensures { IsNamed result kind (name_bytes name.now) }
{
    let mut told = of_kind_alone(kind);
    told.name = name_record(name);
    told
}

/// An event of a kind that names a player with whom there is to be a match.
fn of_match(kind: u8, name: &Name<'_>, length: Length) -> EventRecord
    ensures { IsOfMatch result kind (name_bytes name.now) length }
{
    let mut told = named(kind, name);
    told.length = length_number(length);
    told
}

/// An event of a kind and a side.
fn of_side(kind: u8, who: Side) -> EventRecord
    ensures { IsOfSide result kind who }
{
    let mut told = of_kind_alone(kind);
    told.who = side_number(who);
    told
}

/// A roll.
fn rolled(who: Side, dice: [u8; 2]) -> EventRecord
    ensures { IsEvent result (E.Rolled who dice) }
{
    let mut told = of_side(7, who);
    told.dice = dice;
    told
}

/// A play.
fn played(who: Side, play: &Play) -> EventRecord
    ensures { IsEvent result (E.Played who play.now) }
{
    let mut told = of_side(8, who);
    told.play = play_record(play);
    told
}

/// An offer that is accepted.
fn accepted(who: Side, offer: Offer) -> EventRecord
    ensures { IsEvent result (E.Accepted who offer) }
{
    let mut told = of_side(11, who);
    told.offer = offer_number(offer);
    told
}

/// An event of a kind, a side, and points that it offers or wins.
fn of_points(kind: u8, who: Side, points: u32, worth: Option<Stake>) -> EventRecord
    ensures { IsOfPoints result kind who points worth }
{
    let mut told = of_side(kind, who);
    told.points = points;
    told.worth = worth_number(worth);
    told
}

/// The end of a match.
fn match_over(winner: Side, length: u32, score: [u32; 2]) -> EventRecord
    ensures { IsEvent result (E.MatchOver winner length score) }
{
    let mut told = of_side(17, winner);
    told.length = length;
    told.score = score;
    told
}

/// A rating that has changed.
fn rated(who: Side, rating: u32, experience: u64) -> EventRecord
    ensures { IsEvent result (E.RatingChanged who rating experience) }
{
    let mut told = of_side(20, who);
    told.rating = rating;
    told.experience = experience;
    told
}

/// An event as C has it.
fn event_record(event: &Event<'_>) -> EventRecord
    ensures { IsEvent result event.now }
{
    match event {
        Event::LoggedIn { name } => named(1, name),
        Event::Invited { name, length } => of_match(2, name, *length),
        Event::InvitedToResume { name } => named(3, name),
        Event::Joined { name, length } => of_match(4, name, *length),
        Event::Resumed { name } => named(5, name),
        Event::GameBegun { name } => named(6, name),
        Event::Rolled { who, dice } => rolled(*who, *dice),
        Event::Played { who, play } => played(*who, play),
        Event::CannotMove { who } => of_side(9, *who),
        Event::Doubled { who } => of_side(10, *who),
        Event::Accepted { who, offer } => accepted(*who, *offer),
        Event::Rejected { who } => of_side(12, *who),
        Event::OfferedToResign { who, points, worth } => of_points(13, *who, *points, *worth),
        Event::Declined { who } => of_side(14, *who),
        Event::GameOver {
            winner,
            points,
            worth,
        } => of_points(15, *winner, *points, *worth),
        Event::NextGame => of_kind_alone(16),
        Event::MatchOver {
            winner,
            length,
            score,
        } => match_over(*winner, *length, *score),
        Event::Left { who } => of_side(18, *who),
        Event::NotPlaying => of_kind_alone(19),
        Event::RatingChanged {
            who,
            rating,
            experience,
        } => rated(*who, *rating, *experience),
        Event::NothingSaved { name } => named(21, name),
        Event::Refused { .. } => of_kind_alone(22),
        Event::LoginRefused => of_kind_alone(23),
    }
}

/// An event as C has it, if there is one.
fn said(event: &Option<Event<'_>>) -> Option<EventRecord>
    ensures { IsMaybeEvent result event.now }
{
    match event {
        None => None,
        Some(event) => Some(event_record(event)),
    }
}

/// A play as C has it; without a step it is the event that a side can't move.
fn turned_record(turned: &Turned) -> EventRecord
    ensures { IsEvent result (turned_event turned.now) }
{
    if turned.play.steps().is_empty() {
        of_side(9, turned.who)
    } else {
        played(turned.who, &turned.play)
    }
}

/// The play.
fn play(happened: &Happened<'_>) -> Option<EventRecord>
    ensures { IsMaybeEvent result (option_map turned_event happened.now.played) }
{
    match &happened.played {
        None => None,
        Some(turned) => Some(turned_record(turned)),
    }
}

/// The double.
fn double(happened: &Happened<'_>) -> Option<EventRecord>
    ensures { IsMaybeEvent result (option_map E.Doubled happened.now.doubled) }
{
    match happened.doubled {
        None => None,
        Some(who) => Some(of_side(10, who)),
    }
}

/// The double that is accepted.
fn acceptance(happened: &Happened<'_>) -> Option<EventRecord>
    ensures { IsMaybeEvent result (option_map taken_event happened.now.accepted) }
{
    match happened.accepted {
        None => None,
        Some(who) => Some(accepted(who, Offer::Double)),
    }
}

/// The roll.
fn roll(happened: &Happened<'_>) -> Option<EventRecord>
    ensures { IsMaybeEvent result (option_map rolled_event happened.now.rolled) }
{
    match happened.rolled {
        None => None,
        Some(roll) => Some(rolled(roll.who, roll.dice)),
    }
}

/// The end of the game.
fn game_end(happened: &Happened<'_>) -> Option<EventRecord>
    ensures { IsMaybeEvent result (option_map won_event happened.now.won) }
{
    match happened.won {
        None => None,
        Some(won) => Some(of_points(15, won.winner, won.points, won.worth)),
    }
}

/// The end of the match.
fn match_end(happened: &Happened<'_>) -> Option<EventRecord>
    ensures { IsMaybeEvent result (option_map won_match_event happened.now.won_match) }
{
    match happened.won_match {
        None => None,
        Some(won) => Some(match_over(won.winner, won.length, won.score)),
    }
}

/// Adds an event, if there is one.
fn push(told: &mut HappenedRecord, event: &Option<EventRecord>)
    requires { told.old.count < 7 }
    ensures count { told.new.count ≤ told.old.count + 1 }
    ensures events { events_in told.new ≡ events_in told.old ++ listed event.now }
{
    match event {
        None => {}
        Some(event) => {
            told.events[told.count] = *event;
            told.count += 1;
        }
    }
}

/// One event, or none, as C has it.
pub fn said_record(event: &Option<Event<'_>>) -> HappenedRecord
    ensures few { result.count ≤ 1 }
    ensures events { AreEvents (events_in result) (listed event.now) }
{
    let mut told = HappenedRecord {
        count: 0,
        events: [of_kind_alone(0); 7],
    };
    push(&mut told, &said(event));
    told
}

/// What has happened by a line, as C has it.
pub fn happened_record(happened: &Happened<'_>) -> HappenedRecord
    ensures few { result.count ≤ 7 }
    ensures events { AreEvents (events_in result) (events_of happened.now) }
{
    let mut told = said_record(&happened.said);
    push(&mut told, &play(happened));
    push(&mut told, &double(happened));
    push(&mut told, &acceptance(happened));
    push(&mut told, &roll(happened));
    push(&mut told, &game_end(happened));
    push(&mut told, &match_end(happened));
    told
}
