//! What has happened by one line.

ghost use Rattle.std.specs.Prelude.{◌≡◌, ◌==◌, None, length, option_map};
ghost use Rattle.fibs_rules.specs.PlayValue.{hops_of};
ghost use Rattle.fibs_events.specs.Happenings.{nothing};
ghost use Rattle.fibs_events.specs.InOrder.{accepted_event, doubled_event, events_of, played_event, rolled_event, won_event, won_match_event};

use crate::event::{Event, Offer, Side};
use fibs_position::{Play, Stake};

/// A play of a side, in its own numbering.
#[derive(Clone, Copy, Debug)]
pub struct Turned {
    /// Who has played.
    pub who: Side,
    /// The steps; none if he can't move.
    pub play: Play,
}

/// A roll of a side.
#[derive(Clone, Copy, Debug, PartialEq, Eq)]
pub struct Rolled {
    /// Who has rolled.
    pub who: Side,
    /// What.
    pub dice: [u8; 2],
}

/// The end of a game.
#[derive(Clone, Copy, Debug, PartialEq, Eq)]
pub struct Won {
    /// Who has won.
    pub winner: Side,
    /// How many points.
    pub points: u32,
    /// What that is, if they are one, two or three times the cube of the board that is known.
    pub worth: Option<Stake>,
}

/// The end of a match.
#[derive(Clone, Copy, Debug, PartialEq, Eq)]
pub struct WonMatch {
    /// Who has won.
    pub winner: Side,
    /// How many points it was to.
    pub length: u32,
    /// The points of the user, and of his opponent.
    pub score: [u32; 2],
}

/// The most events of one line.
pub const MOST_EVENTS: usize = 7;

/// What has happened by one line, in this order.
#[derive(Clone, Copy, Debug)]
pub struct Happened<'a> {
    /// What a text or a message says that is none of the following.
    pub said: Option<Event<'a>>,
    /// A play.
    pub played: Option<Turned>,
    /// Who doubles.
    pub doubled: Option<Side>,
    /// Who has accepted a double.
    pub accepted: Option<Side>,
    /// A roll.
    pub rolled: Option<Rolled>,
    /// The end of a game.
    pub won: Option<Won>,
    /// The end of a match.
    pub won_match: Option<WonMatch>,
}

/// Whether a play has no step.
fn is_empty(play: &Play) -> bool
    ensures { result ≡ (length (hops_of play.now) == 0) }
{
    play.steps().is_empty()
}

impl Turned {
    /// The event that it is.
    fn event<'a>(&self) -> Event<'a>
        ensures { result ≡ played_event self.now }
    {
        if is_empty(&self.play) {
            Event::CannotMove { who: self.who }
        } else {
            Event::Played {
                who: self.who,
                play: self.play,
            }
        }
    }
}

impl<'a> Happened<'a> {
    /// Nothing has happened.
    pub fn nothing() -> Happened<'a>
        ensures { result ≡ nothing }
    {
        Happened {
            said: None,
            played: None,
            doubled: None,
            accepted: None,
            rolled: None,
            won: None,
            won_match: None,
        }
    }

    /// What was said has happened, and nothing else.
    pub(crate) fn of_said(said: Option<Event<'a>>) -> Happened<'a>
        ensures said { result.said ≡ said.entry }
        ensures played { result.played ≡ None }
        ensures rolled { result.rolled ≡ None }
        ensures value { result ≡ record nothing { said = said.entry } }
    {
        let mut happened = Happened::nothing();
        happened.said = said;
        happened
    }

    /// The event of a game's end.
    fn game_over(&self) -> Option<Event<'a>>
        ensures { result ≡ option_map won_event self.now.won }
    {
        let won = self.won?;
        Some(Event::GameOver {
            winner: won.winner,
            points: won.points,
            worth: won.worth,
        })
    }

    /// The event of a match's end.
    fn match_over(&self) -> Option<Event<'a>>
        ensures { result ≡ option_map won_match_event self.now.won_match }
    {
        let won = self.won_match?;
        let score = won.score;
        Some(Event::MatchOver {
            winner: won.winner,
            length: won.length,
            score,
        })
    }

    /// The event of a play.
    fn play(&self) -> Option<Event<'a>>
        ensures { result ≡ option_map played_event self.now.played }
    {
        let turned = self.played?;
        Some(turned.event())
    }

    /// The event of a double.
    fn double(&self) -> Option<Event<'a>>
        ensures { result ≡ option_map doubled_event self.now.doubled }
    {
        let who = self.doubled?;
        Some(Event::Doubled { who })
    }

    /// The event of a double that is accepted.
    fn acceptance(&self) -> Option<Event<'a>>
        ensures { result ≡ option_map accepted_event self.now.accepted }
    {
        let who = self.accepted?;
        Some(Event::Accepted {
            who,
            offer: Offer::Double,
        })
    }

    /// The event of a roll.
    fn roll(&self) -> Option<Event<'a>>
        ensures { result ≡ option_map rolled_event self.now.rolled }
    {
        let rolled = self.rolled?;
        let dice = rolled.dice;
        Some(Event::Rolled {
            who: rolled.who,
            dice,
        })
    }

    /// The events, in the order in which they happened, with nothing between some of them.
    pub fn events(&self) -> [Option<Event<'a>>; MOST_EVENTS]
        ensures { result ≡ events_of self.now }
    {
        [
            self.said,
            self.play(),
            self.double(),
            self.acceptance(),
            self.roll(),
            self.game_over(),
            self.match_over(),
        ]
    }
}
