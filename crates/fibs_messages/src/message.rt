//! The numbered messages of the server (FIBS CLIP specification 1008).

use crate::field::{Field, own_info_fields};
use fibs_fields::name::Name;
use fibs_fields::word::{Tail, Word};
use std::fmt;

/// The contents of message 2: the settings of the user who logged in.
#[derive(Clone, Copy, PartialEq, Eq)]
pub struct OwnInfo<'a> {
    /// The user's name.
    pub name: Name<'a>,
    /// Whether the opponent may use the command `pip`.
    pub allowpip: bool,
    /// Whether a board is sent after every move.
    pub autoboard: bool,
    /// Whether a doublet in the opening doubles the cube.
    pub autodouble: bool,
    /// Whether the server makes a move if there is only one.
    pub automove: bool,
    /// Whether the user is away.
    pub away: bool,
    /// Whether the bell rings at certain events.
    pub bell: bool,
    /// Whether matches are played with the Crawford rule.
    pub crawford: bool,
    /// Whether the user is asked before the roll whether to double.
    pub double: bool,
    /// Points of the matches played.
    pub experience: u64,
    /// Whether the server bears off if it can.
    pub greedy: bool,
    /// Whether a board is sent after every roll too.
    pub moreboards: bool,
    /// Whether the moves are listed after a game.
    pub moves: bool,
    /// Whether the server says who logs in and out.
    pub notify: bool,
    /// In hundredths.
    pub rating: u32,
    /// Whether the server says how a rating was calculated.
    pub ratings: bool,
    /// Whether the user is ready to play.
    pub ready: bool,
    /// How many immediate redoubles: a number, `none` or `unlimited`.
    pub redoubles: Word<'a>,
    /// Whether the server reports the start and the end of matches.
    pub report: bool,
    /// Whether shouts are kept from the user.
    pub silent: bool,
    /// The user's time zone.
    pub timezone: Word<'a>,
}

/// The names of its fields.
const OWN_INFO_NAMES: [&str; 21] = [
    "name",
    "allowpip",
    "autoboard",
    "autodouble",
    "automove",
    "away",
    "bell",
    "crawford",
    "double",
    "experience",
    "greedy",
    "moreboards",
    "moves",
    "notify",
    "rating",
    "ratings",
    "ready",
    "redoubles",
    "report",
    "silent",
    "timezone",
];

/// As a derived one prints it, whose proof would take three times as long.
impl fmt::Debug for OwnInfo<'_> {
    fn fmt<W: fmt::Write>(&self, f: &mut fmt::Formatter<W>) -> fmt::Result {
        let fields = own_info_fields(self);
        let mut told = f.debug_struct("OwnInfo");
        let mut at = 0;
        while at < OWN_INFO_NAMES.len() {
            let name = OWN_INFO_NAMES[at];
            match &fields[at] {
                Field::Name(it) => told.field(name, it),
                Field::Word(it) => told.field(name, it),
                Field::Tail(it) => told.field(name, it),
                Field::Flag(it) => told.field(name, it),
                Field::Number(it) => told.field(name, it),
                Field::Rating(it) => told.field(name, it),
                Field::Text(it) => told.field(name, it),
            };
            at += 1;
        }
        told.finish()
    }
}

/// The contents of message 5: what the server says of a player.
#[derive(Clone, Copy, Debug, PartialEq, Eq)]
pub struct WhoInfo<'a> {
    /// The player's name.
    pub name: Name<'a>,
    /// Whom the player plays, `-` for no one.
    pub opponent: Name<'a>,
    /// Whom the player watches, `-` for no one.
    pub watching: Name<'a>,
    /// Whether the player is ready to play.
    pub ready: bool,
    /// Whether the player is away.
    pub away: bool,
    /// In hundredths.
    pub rating: u32,
    /// Points of the matches played.
    pub experience: u64,
    /// Seconds since the player last typed.
    pub idle: u64,
    /// When the player logged in, in seconds since 1970.
    pub login: u64,
    /// Where the player logged in from.
    pub hostname: Word<'a>,
    /// The program that the player uses, `-` if it is not known.
    pub client: Word<'a>,
    /// The email address, `-` for none.
    pub email: Tail<'a>,
}

/// A numbered message. Its names, words and texts borrow from its line; a text may be empty.
#[derive(Clone, Copy, Debug, PartialEq, Eq)]
pub enum Message<'a> {
    /// 1: the user is logged in.
    Welcome {
        /// The user's name.
        name: Name<'a>,
        /// In seconds since 1970.
        last_login: u64,
        /// Where the user last logged in from.
        last_host: Word<'a>,
    },
    /// 2: the user's settings.
    OwnInfo(OwnInfo<'a>),
    /// 3: the message of the day begins.
    MotdBegin,
    /// 4: the message of the day has ended.
    MotdEnd,
    /// 5: a player.
    WhoInfo(WhoInfo<'a>),
    /// 6: a list of players has ended.
    WhoInfoEnd,
    /// 7: a player logged in.
    Login {
        /// Who logged in.
        name: Name<'a>,
        /// What the server says of it.
        text: &'a [u8],
    },
    /// 8: a player logged out.
    Logout {
        /// Who logged out.
        name: Name<'a>,
        /// What the server says of it.
        text: &'a [u8],
    },
    /// 9: a message that was left for the user.
    MessageReceived {
        /// Who left it.
        sender: Name<'a>,
        /// In seconds since 1970.
        time: u64,
        /// What it says.
        text: &'a [u8],
    },
    /// 10: the user's message reached a player.
    MessageDelivered {
        /// Whom it reached.
        name: Name<'a>,
    },
    /// 11: the user's message is kept for a player.
    MessageSaved {
        /// For whom it is kept.
        name: Name<'a>,
    },
    /// 12: a player says something to the user.
    Says {
        /// Who says it.
        name: Name<'a>,
        /// What is said.
        text: &'a [u8],
    },
    /// 13: a player shouts to all.
    Shouts {
        /// Who shouts.
        name: Name<'a>,
        /// What is shouted.
        text: &'a [u8],
    },
    /// 14: a player whispers to those who watch.
    Whispers {
        /// Who whispers.
        name: Name<'a>,
        /// What is whispered.
        text: &'a [u8],
    },
    /// 15: a player kibitzes to those who play and watch.
    Kibitzes {
        /// Who kibitzes.
        name: Name<'a>,
        /// What is kibitzed.
        text: &'a [u8],
    },
    /// 16: what the user said to a player.
    YouSay {
        /// To whom.
        name: Name<'a>,
        /// What was said.
        text: &'a [u8],
    },
    /// 17: what the user shouted.
    YouShout {
        /// What was shouted.
        text: &'a [u8],
    },
    /// 18: what the user whispered.
    YouWhisper {
        /// What was whispered.
        text: &'a [u8],
    },
    /// 19: what the user kibitzed.
    YouKibitz {
        /// What was kibitzed.
        text: &'a [u8],
    },
}
