//! What is remembered between two lines, each fact in the box of what it is of.

ghost use Rattle.std.specs.Prelude.{◌≡◌, ◌≢◌, ◌↔◌, [], None, Some, IfSome, IfNone, IsTrue};
ghost use Rattle.fibs_fields.specs.Bytes.{name_bytes};
ghost use Rattle.fibs_events.specs.Known.{known_of, opponent_of, side_in};
ghost use Rattle.fibs_events.specs.Remembered.{IsRollTold, begun, doubled_by, ended_game, met, new_game, rolled_in, unheard};

use crate::event::{Length, Side};
use crate::happened::Rolled;
use arrayvec::ArrayVec;
use fibs_messages::Name;
use fibs_position::GameBoard;

/// A name that is kept; empty if none is known.
pub(crate) type KeptName = ArrayVec<u8, 64>;

/// An offer to give up the game.
#[derive(Clone, Copy, PartialEq, Eq)]
pub(crate) struct Resignation {
    /// Who offers it.
    pub who: Side,
    /// For how many points.
    pub points: u32,
}

/// What was said of a game and is not shown by its boards, so that nothing is reported twice.
#[derive(Clone, Copy)]
pub(crate) struct Game {
    /// The roll that was reported last, until it is played.
    pub roll: Option<Rolled>,
    /// Who has doubled, until that is answered.
    pub doubled: Option<Side>,
    /// An offer to give up, until it is answered or the game goes on.
    pub resignation: Option<Resignation>,
    /// Whether its end was reported.
    pub is_over: bool,
}

/// What was said last of the match.
#[derive(Clone, Copy, Debug, PartialEq, Eq)]
pub(crate) enum Stage {
    /// Nothing.
    Unknown,
    /// That it begins.
    Joined,
    /// That it goes on.
    Resumed,
    /// That a game begins.
    Begun,
    /// A board was shown.
    Playing,
    /// That the next game waits.
    Next,
    /// That it was left.
    Left,
    /// That there is none.
    NotPlaying,
}

/// An invitation that was not answered.
#[derive(Clone, Copy, PartialEq, Eq)]
pub(crate) enum Invitation {
    /// There is none.
    Nothing,
    /// To a new match.
    New(Length),
    /// To a match that was saved.
    Saved,
}

/// A player's rating in hundredths, if it is known.
pub(crate) type Rating = Option<u32>;

/// The events of a stream of lines. It hears each reading once, in their order; a line that was cut is not heard. It
/// goes on over connections, as a saved session does.
#[derive(Drop)]
pub struct Events {
    /// The board of the user's game that came last, with what texts have added to it.
    pub(crate) known: Option<GameBoard>,
    /// The user's name.
    pub(crate) name: KeptName,
    /// With whom the user plays, or played last.
    pub(crate) opponent: KeptName,
    /// What was said of the game.
    pub(crate) game: Game,
    /// What was said of the match.
    pub(crate) stage: Stage,
    /// Whether the end of the match was reported.
    pub(crate) is_won: bool,
    /// Who invites the user.
    pub(crate) inviter: KeptName,
    /// To what.
    pub(crate) invitation: Invitation,
    /// The user's rating.
    pub(crate) own_rating: Rating,
    /// His opponent's.
    pub(crate) other_rating: Rating,
    /// Whether the message of the day is being said: its lines may have any words.
    pub(crate) is_motd: bool,
}

/// The name of a player, kept.
pub(crate) fn kept(name: Name<'_>) -> KeptName
    ensures { result.items ≡ name_bytes name.entry }
{
    let mut kept = KeptName::new();
    let _fits = kept.try_extend_from_slice(name.bytes());
    kept
}

impl Game {
    /// Nothing was said of it.
    pub(crate) fn new() -> Game
        ensures { result ≡ new_game }
    {
        Game {
            roll: None,
            doubled: None,
            resignation: None,
            is_over: false,
        }
    }

    /// One whose end was reported.
    pub(crate) fn ended() -> Game
        ensures { result ≡ ended_game }
    {
        let mut game = Game::new();
        game.is_over = true;
        game
    }

    /// Takes note of a roll. The roll, if it was not reported yet, in whatever order its dice were told.
    pub(crate) fn note_roll(&mut self, roll: Rolled) -> Option<Rolled>
        ensures value { IfSome result (λ told. told ≡ roll) }
        ensures told { IfSome result (λ told. self.new ≡ rolled_in roll self.old) }
        ensures known { IfNone result (IsRollTold self.old.roll roll) }
        ensures same { IfNone result (self.new ≡ self.old) }
    {
        if self.has_roll(&roll) {
            return None;
        }
        self.resignation = None;
        self.doubled = None;
        self.roll = Some(roll);
        Some(roll)
    }

    /// Whether a roll was reported and not played.
    fn has_roll(&self, roll: &Rolled) -> bool
        ensures { IsTrue result ↔ IsRollTold self.now.roll roll.now }
    {
        let Some(told) = self.roll else {
            return false;
        };
        let ([a, b], [c, d]) = (told.dice, roll.dice);
        told.who == roll.who && ((a == c && b == d) || (a == d && b == c))
    }

    /// Takes note of a double. Who doubles, if that was not reported yet.
    pub(crate) fn note_double(&mut self, who: Side) -> Option<Side>
        ensures value { IfSome result (λ told. told ≡ who) }
        ensures told { IfSome result (λ told. self.old.doubled ≢ Some who) }
        ensures known { IfNone result (self.old.doubled ≡ Some who) }
        ensures noted { self.new ≡ doubled_by (Some who) self.old }
    {
        let is_known = self.doubled == Some(who);
        self.doubled = Some(who);
        if is_known { None } else { Some(who) }
    }
}

impl Events {
    /// Nothing was heard.
    pub fn new() -> Events
        ensures known { known_of result ≡ None }
        ensures opponent { opponent_of result ≡ [] }
        ensures value { result ≡ unheard [] }
    {
        Events {
            known: None,
            name: KeptName::new(),
            opponent: KeptName::new(),
            game: Game::new(),
            stage: Stage::Unknown,
            is_won: false,
            inviter: KeptName::new(),
            invitation: Invitation::Nothing,
            own_rating: None,
            other_rating: None,
            is_motd: false,
        }
    }

    /// The opponent of the match that is played, or was played last; empty if none is known.
    pub fn opponent(&self) -> &[u8]
        ensures { result.now ≡ opponent_of self.now }
    {
        self.opponent.as_slice()
    }

    /// A game begins, of which no board has come.
    pub(crate) fn begin_game(&mut self)
        ensures { self.new ≡ begun self.old }
    {
        self.known = None;
        self.game = Game::new();
    }

    /// A match is on the table with this player. With another one than before nothing is known of it.
    pub(crate) fn meet(&mut self, name: Name<'_>)
        ensures { self.new ≡ met (name_bytes name.entry) self.old }
    {
        if self.opponent.as_slice() != name.bytes() {
            self.opponent = kept(name);
            self.other_rating = None;
            self.begin_game();
        }
        self.is_won = false;
        self.invitation = Invitation::Nothing;
    }

    /// The side of a name that a text has: none is the user. None if it is another player's.
    pub(crate) fn side_of(&self, name: &[u8]) -> Option<Side>
        ensures { result ≡ side_in name.now self.now }
    {
        if name.is_empty() {
            Some(Side::Own)
        } else if self.opponent.as_slice() == name {
            Some(Side::Other)
        } else {
            None
        }
    }
}
