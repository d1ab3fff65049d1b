//! What has happened, as values.

ghost use Rattle.std.specs.Prelude.{◌≡◌};
ghost use Rattle.fibs_events.specs.Ends.{other_side};

use fibs_messages::Name;
use fibs_position::{Play, Stake};

/// A side of a game in which the user plays.
#[derive(Clone, Copy, Debug, PartialEq, Eq)]
pub enum Side {
    /// The user.
    Own,
    /// His opponent.
    Other,
}

/// To how many points a match is.
#[derive(Clone, Copy, Debug, PartialEq, Eq)]
pub enum Length {
    /// To so many.
    Points(u32),
    /// It goes on until it is left.
    Unlimited,
}

/// What an accepted offer was.
#[derive(Clone, Copy, Debug, PartialEq, Eq)]
pub enum Offer {
    /// To double the cube.
    Double,
    /// To give up the game.
    Resignation,
}

/// What has happened.
#[derive(Clone, Copy, Debug, PartialEq, Eq)]
pub enum Event<'a> {
    /// The server has greeted the user.
    LoggedIn {
        /// The user.
        name: Name<'a>,
    },
    /// The server has refused the login: it asks for it once more.
    LoginRefused,
    /// A player invites the user to a new match.
    Invited {
        /// Who invites.
        name: Name<'a>,
        /// To how many points.
        length: Length,
    },
    /// A player invites the user to go on with a match that was saved.
    InvitedToResume {
        /// Who invites.
        name: Name<'a>,
    },
    /// A match begins.
    Joined {
        /// The opponent.
        name: Name<'a>,
        /// To how many points.
        length: Length,
    },
    /// A match goes on that was saved.
    Resumed {
        /// The opponent.
        name: Name<'a>,
    },
    /// A game begins.
    GameBegun {
        /// The opponent.
        name: Name<'a>,
    },
    /// A side has rolled.
    Rolled {
        /// Which.
        who: Side,
        /// What.
        dice: [u8; 2],
    },
    /// A side has played.
    Played {
        /// Which.
        who: Side,
        /// The steps, in its own numbering.
        play: Play,
    },
    /// A side has rolled, and can't move.
    CannotMove {
        /// Which.
        who: Side,
    },
    /// A side offers a double.
    Doubled {
        /// Which.
        who: Side,
    },
    /// A side has accepted the offer of the other.
    Accepted {
        /// Which.
        who: Side,
        /// What was offered.
        offer: Offer,
    },
    /// A side has rejected the double of the other, which ends the game.
    Rejected {
        /// Which.
        who: Side,
    },
    /// A side offers to give up the game.
    OfferedToResign {
        /// Which.
        who: Side,
        /// For how many points.
        points: u32,
        /// What that is, if they are one, two or three times the cube of the board that is known.
        worth: Option<Stake>,
    },
    /// A side has declined that the other gives up.
    Declined {
        /// Which.
        who: Side,
    },
    /// A game is over.
    GameOver {
        /// Who has won it.
        winner: Side,
        /// How many points.
        points: u32,
        /// What that is, if they are one, two or three times the cube of the board that is known.
        worth: Option<Stake>,
    },
    /// The next game of the match waits for `join`.
    NextGame,
    /// A match is over.
    MatchOver {
        /// Who has won it.
        winner: Side,
        /// How many points it was to.
        length: u32,
        /// The points of the user, and of his opponent.
        score: [u32; 2],
    },
    /// The match was left, and is saved.
    Left {
        /// Who has left it.
        who: Side,
    },
    /// The user plays in no match.
    NotPlaying,
    /// A rating has changed.
    RatingChanged {
        /// Whose.
        who: Side,
        /// In hundredths.
        rating: u32,
        /// Points of the matches played.
        experience: u64,
    },
    /// No match with a player was saved: the answer to an invitation to resume.
    NothingSaved {
        /// With whom.
        name: Name<'a>,
    },
    /// The server has refused a decision.
    Refused {
        /// What it says.
        text: &'a [u8],
    },
}

impl Side {
    /// The side that is not this one.
    pub fn other(self) -> Side
        ensures { result ≡ other_side self }
    {
        match self {
            Side::Own => Side::Other,
            Side::Other => Side::Own,
        }
    }
}
