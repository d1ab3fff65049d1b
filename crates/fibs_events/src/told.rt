//! What a text of the server says of the match: a table of shapes.

ghost use Rattle.std.specs.Prelude.{◌≡◌, ℕ, List, IfSome, MatchOption};
ghost use Rattle.fibs_events.specs.Told.{HasFirst, HasNone, HasShape, IsNameOrNone, IsTold, is_of_opponent};

use bstr::ByteSlice;
use fibs_fields::name::Name;
use fibs_fields::split::split;
use fibs_fields::trailing_spaces::without_spaces;

/// What a text says of the match.
#[derive(Clone, Copy, Debug, PartialEq, Eq)]
pub enum Told {
    /// The opponent declined the user's offer to resign.
    Declined,
    /// The server refused a decision.
    Refused,
    /// The server refused a double.
    NoDouble,
    /// The server refused an answer: the opponent has made no offer.
    NoOffer,
    /// The user's own offer is before the opponent.
    Offered,
    /// The opponent's offer is before the user.
    MustAnswer,
    /// The user has declined an offer to resign, and the game goes on.
    Continues,
    /// The opponent has accepted the double.
    Taken,
    /// The user is to roll, or may double.
    ToRoll,
    /// The user is to move.
    ToMove,
    /// The opponent has rolled or moved.
    Plays,
    /// The opponent doubles.
    Doubles,
    /// The opponent offers to resign.
    Resigns,
    /// The game is over.
    GameOver,
    /// The game is over, and the next one waits for `join`.
    NextGame,
    /// The user has joined the next game, and the opponent has not.
    Joined,
    /// The match is over.
    MatchOver,
    /// The match was saved.
    Saved,
    /// The user plays with nobody.
    NotPlaying,
    /// A match or a game begins.
    Begins,
    /// A match is resumed.
    Resumes,
    /// Somebody invites the user.
    Invited,
    /// No match with a player was saved.
    NoMatch,
    /// A player, or anybody, does not invite the user.
    NotInvited,
    /// Something else: what the user waits for stays as it is.
    Else,
}

/// What has happened, as a text says it.
#[derive(Clone, Copy, Debug, PartialEq, Eq)]
pub enum Deed {
    /// Nothing that is an event.
    Nothing,
    /// A roll.
    Rolls,
    /// The first roll of a game.
    Opens,
    /// A play.
    Moves,
    /// That nothing can be moved.
    CannotMove,
    /// A double.
    Doubles,
    /// The double is accepted.
    TakesDouble,
    /// The double is rejected.
    GivesUp,
    /// An offer to resign.
    Resigns,
    /// The offer to resign is accepted.
    TakesResignation,
    /// The offer to resign is declined.
    Declines,
    /// A game is won.
    WinsGame,
    /// A match is won.
    WinsMatch,
    /// The match is left, and saved.
    Leaves,
    /// A match begins.
    Joins,
    /// A match is resumed.
    Resumes,
    /// A game begins.
    BeginsGame,
    /// The next game waits for `join`.
    AsksForNext,
    /// The user plays with nobody.
    IsNotPlaying,
    /// An invitation to a new match.
    Invites,
    /// An invitation to a match that was saved.
    InvitesToResume,
    /// No match with a player was saved.
    HasNotSaved,
    /// A player, or anybody, does not invite the user.
    DoesNotInvite,
    /// A decision is refused.
    Refuses,
}

/// What a text says, and of whom.
#[derive(Clone, Copy)]
pub struct Report<'a> {
    /// What it says of what the user waits for.
    pub told: Told,
    /// What has happened by it.
    pub deed: Deed,
    /// The player whom it names; empty if it names none.
    pub name: &'a [u8],
    /// What follows the beginning by which it is known.
    pub rest: &'a [u8],
}

/// How a text begins, what it contains after that, how it ends, what it says, and what has happened by it.
type Shape = (&'static [u8], &'static [u8], &'static [u8], Told, Deed);

/// Shapes of texts that begin with the name of a player and a space: what follows them.
const OF_A_PLAYER: [Shape; 15] = [
    (
        b"rejects. The game continues.",
        b"",
        b"",
        Told::Declined,
        Deed::Declines,
    ),
    (
        b"accepts the double.",
        b"",
        b"",
        Told::Taken,
        Deed::TakesDouble,
    ),
    (
        b"accepts and wins ",
        b" point",
        b"",
        Told::GameOver,
        Deed::TakesResignation,
    ),
    (
        b"gives up. You win ",
        b"",
        b"",
        Told::GameOver,
        Deed::GivesUp,
    ),
    (b"wins the game", b"", b"", Told::GameOver, Deed::WinsGame),
    (
        b"wins the ",
        b" match ",
        b"",
        Told::MatchOver,
        Deed::WinsMatch,
    ),
    (
        b"doubles. Type ",
        b"accept",
        b"",
        Told::Doubles,
        Deed::Doubles,
    ),
    (
        b"wants to resign. You will win ",
        b"",
        b"",
        Told::Resigns,
        Deed::Resigns,
    ),
    (b"has joined you", b"", b"", Told::Resumes, Deed::Resumes),
    (
        b"wants to resume a saved match with you.",
        b"",
        b"",
        Told::Invited,
        Deed::InvitesToResume,
    ),
    (
        b"wants to play ",
        b" with you.",
        b"",
        Told::Invited,
        Deed::Invites,
    ),
    (b"rolls ", b"", b"", Told::Plays, Deed::Rolls),
    (b"moves ", b"", b"", Told::Plays, Deed::Moves),
    (b"", b"", b"The game was saved.", Told::Saved, Deed::Leaves),
    (b"can't move.", b"", b"", Told::Else, Deed::CannotMove),
];

/// Shapes of texts in which the name of a player comes next, after how they begin.
const NAMING: [Shape; 10] = [
    (
        b"** Please wait for ",
        b" to join",
        b"",
        Told::Joined,
        Deed::Nothing,
    ),
    (
        b"Please wait for ",
        b" to join",
        b"",
        Told::Joined,
        Deed::Nothing,
    ),
    (
        b"** Player ",
        b" has left the game",
        b"",
        Told::Saved,
        Deed::Leaves,
    ),
    (
        b"** Player ",
        b" has joined you for ",
        b"",
        Told::Begins,
        Deed::Joins,
    ),
    (
        b"** Player ",
        b" wants to play the next game",
        b"",
        Told::NextGame,
        Deed::AsksForNext,
    ),
    (
        b"You are now playing with ",
        b" Your running match was loaded.",
        b"",
        Told::Resumes,
        Deed::Resumes,
    ),
    (
        b"Starting a new game with ",
        b"",
        b".",
        Told::Begins,
        Deed::BeginsGame,
    ),
    (
        b"Type 'join ",
        b"",
        b"' to accept.",
        Told::Invited,
        Deed::Nothing,
    ),
    (
        b"** There's no saved match with ",
        b"",
        b"",
        Told::NoMatch,
        Deed::HasNotSaved,
    ),
    (
        b"** ",
        b" didn't invite you.",
        b"",
        Told::NotInvited,
        Deed::DoesNotInvite,
    ),
];

/// Shapes of texts in which the name of a player comes after ` with `.
const WITH_A_PLAYER: [Shape; 1] = [(
    b"** You are now playing ",
    b" with ",
    b"",
    Told::Begins,
    Deed::Joins,
)];

/// Shapes of the other texts. Refusals that say where the match is come before those that refuse a decision.
const OTHERS: [Shape; 42] = [
    (
        b"** You're not playing. Type 'join'",
        b"",
        b"",
        Told::NextGame,
        Deed::AsksForNext,
    ),
    (
        b"** You are not playing",
        b"",
        b"",
        Told::NotPlaying,
        Deed::IsNotPlaying,
    ),
    (
        b"** You're not playing",
        b"",
        b"",
        Told::NotPlaying,
        Deed::IsNotPlaying,
    ),
    (
        b"** You're not watching or playing",
        b"",
        b"",
        Told::NotPlaying,
        Deed::IsNotPlaying,
    ),
    (
        b"** Error: you are not playing",
        b"",
        b"",
        Told::NotPlaying,
        Deed::IsNotPlaying,
    ),
    (
        b"** You have to wait for ",
        b"",
        b" to accept or reject.",
        Told::Offered,
        Deed::Refuses,
    ),
    (
        b"** Please wait until ",
        b"",
        b" your offer.",
        Told::Offered,
        Deed::Refuses,
    ),
    (
        b"** You have to accept or reject",
        b"",
        b"",
        Told::MustAnswer,
        Deed::Refuses,
    ),
    (
        b"** Please type 'accept' or 'reject'",
        b"",
        b"",
        Told::MustAnswer,
        Deed::Refuses,
    ),
    (
        b"** You terminated the game",
        b"",
        b"",
        Told::Saved,
        Deed::Leaves,
    ),
    (
        b"** Nobody ",
        b"invited you.",
        b"",
        Told::NotInvited,
        Deed::DoesNotInvite,
    ),
    (
        b"** You can't double",
        b"",
        b"",
        Told::NoDouble,
        Deed::Refuses,
    ),
    (
        b"** The Crawford rule",
        b"",
        b"",
        Told::NoDouble,
        Deed::Refuses,
    ),
    (b"** You can't move", b"", b"", Told::Refused, Deed::Refuses),
    (b"** You can't roll", b"", b"", Told::Refused, Deed::Refuses),
    (
        b"** You can't accept",
        b"",
        b"",
        Told::Refused,
        Deed::Refuses,
    ),
    (
        b"** You can't reject",
        b"",
        b"",
        Told::Refused,
        Deed::Refuses,
    ),
    (
        b"** You can't resign",
        b"",
        b"",
        Told::Refused,
        Deed::Refuses,
    ),
    (
        b"** It's not your turn",
        b"",
        b"",
        Told::Refused,
        Deed::Refuses,
    ),
    (
        b"** You did already roll",
        b"",
        b"",
        Told::Refused,
        Deed::Refuses,
    ),
    (b"** You have to ", b"", b"", Told::Refused, Deed::Refuses),
    (b"** You must give", b"", b"", Told::Refused, Deed::Refuses),
    (
        b"** There is nothing to ",
        b"",
        b"",
        Told::NoOffer,
        Deed::Refuses,
    ),
    (
        b"** Your opponent didn't ",
        b"",
        b"",
        Told::NoOffer,
        Deed::Refuses,
    ),
    (
        b"** Can't understand the move",
        b"",
        b"",
        Told::Refused,
        Deed::Refuses,
    ),
    (
        b"** Syntax error in move",
        b"",
        b"",
        Told::Refused,
        Deed::Refuses,
    ),
    (
        b"You double. Please wait",
        b"",
        b"",
        Told::Offered,
        Deed::Doubles,
    ),
    (
        b"You want to resign.",
        b"",
        b"",
        Told::Offered,
        Deed::Resigns,
    ),
    (
        b"You reject. The game continues.",
        b"",
        b"",
        Told::Continues,
        Deed::Declines,
    ),
    (
        b"You give up. ",
        b" wins ",
        b"",
        Told::GameOver,
        Deed::GivesUp,
    ),
    (
        b"You accept and win ",
        b"",
        b"",
        Told::GameOver,
        Deed::TakesResignation,
    ),
    (
        b"You win the game",
        b"",
        b"",
        Told::GameOver,
        Deed::WinsGame,
    ),
    (
        b"You win the ",
        b" match ",
        b"",
        Told::MatchOver,
        Deed::WinsMatch,
    ),
    (
        b"Type 'join' if you want to play the next game",
        b"",
        b"",
        Told::NextGame,
        Deed::AsksForNext,
    ),
    (
        b"It's your turn to move",
        b"",
        b"",
        Told::ToMove,
        Deed::Nothing,
    ),
    (b"It's your turn to ", b"", b"", Told::ToRoll, Deed::Nothing),
    (
        b"It's your turn. Please roll",
        b"",
        b"",
        Told::ToRoll,
        Deed::Nothing,
    ),
    (b"Please move ", b" piece", b"", Told::ToMove, Deed::Nothing),
    (b"You roll ", b" and ", b"", Told::Else, Deed::Rolls),
    (b"You rolled ", b" rolled ", b"", Told::Else, Deed::Opens),
    (b"You can't move.", b"", b"", Told::Else, Deed::CannotMove),
    (
        b"You accept the double.",
        b"",
        b"",
        Told::Else,
        Deed::TakesDouble,
    ),
];

/// The shapes of texts that begin with the name of a player.
fn of_a_player() -> &'static [Shape] {
    &OF_A_PLAYER
}

/// The shapes of texts that name a player after how they begin.
fn naming() -> &'static [Shape] {
    &NAMING
}

/// The shapes of texts in which the name of a player comes after ` with `.
fn with_a_player() -> &'static [Shape] {
    &WITH_A_PLAYER
}

/// The shapes of the other texts.
fn others() -> &'static [Shape] {
    &OTHERS
}

impl Told {
    /// Whether it counts only if it names the opponent: who watches another game hears the same of its players.
    pub fn is_of_opponent(self) -> bool
        ensures { result ≡ is_of_opponent self }
    {
        matches!(
            self,
            Told::Declined | Told::Taken | Told::Doubles | Told::Resigns | Told::Plays
        )
    }
}

/// What follows the beginning of a shape in a text that has this shape.
fn after_beginning<'a>(text: &'a [u8], shape: &Shape) -> Option<&'a [u8]>
    ensures { MatchOption result ((rest : List ℕ) → ¬ HasShape text.now shape.now rest)
        (λ rest. HasShape text.now shape.now rest.now) }
{
    let rest = text.strip_prefix(shape.0)?;
    if rest.contains_str(shape.1) && rest.ends_with(shape.2) {
        Some(rest)
    } else {
        None
    }
}

/// What a shape says of a text that has it, and what follows its beginning in the text.
#[derive(Clone, Copy)]
struct Found<'a> {
    told: Told,
    deed: Deed,
    rest: &'a [u8],
}

impl<'a> Found<'a> {
    /// The same of the player with this name.
    fn of(self, name: &'a [u8]) -> Report<'a>
        ensures name { result.name.now ≡ name.entry.now }
        ensures told { result.told ≡ self.entry.told }
        ensures deed { result.deed ≡ self.entry.deed }
    {
        Report {
            told: self.told,
            deed: self.deed,
            name,
            rest: self.rest,
        }
    }
}

/// What the first shape says that a text has.
fn first_of<'a>(shapes: &[Shape], text: &'a [u8]) -> Option<Found<'a>>
    ensures { MatchOption result (HasNone text.now shapes.now)
        (λ found. HasFirst text.now shapes.now found.told found.deed found.rest.now) }
{
    for shape in shapes {
        if let Some(rest) = after_beginning(text, shape) {
            return Some(Found {
                told: shape.3,
                deed: shape.4,
                rest,
            });
        }
    }
    None
}

/// The first word of a text, without the full stop or the quotation mark after it.
fn first_word(text: &[u8]) -> &[u8] {
    let word = split(text, b' ').0;
    match word.strip_suffix(b".") {
        Some(name) => name,
        None => split(word, b'\'').0,
    }
}

/// The bytes, if they are a name; else nothing. What a server calls a name may have bytes that a terminal obeys.
fn name_or_none(bytes: &[u8]) -> &[u8]
    ensures { IsNameOrNone result.now }
{
    match Name::new(bytes) {
        Some(name) => name.bytes(),
        None => b"",
    }
}

/// The word after `with` in a text; empty if there is none.
fn word_after_with(text: &[u8]) -> &[u8] {
    let mut is_next = false;
    for word in text.split(|byte| *byte == b' ') {
        if is_next {
            return word;
        }
        is_next = word == b"with".as_slice();
    }
    b""
}

/// What a text says that names a player after ` with `.
fn read_with_a_player(text: &[u8]) -> Option<Report<'_>>
    ensures { IfSome result (λ report. IsNameOrNone report.name.now) }
{
    let found = first_of(with_a_player(), text)?;
    Some(found.of(name_or_none(first_word(word_after_with(found.rest)))))
}

/// What a text says that names a player after how it begins.
fn read_naming(text: &[u8]) -> Option<Report<'_>>
    ensures { IfSome result (λ report. IsNameOrNone report.name.now) }
{
    let found = first_of(naming(), text)?;
    Some(found.of(name_or_none(first_word(found.rest))))
}

/// What a text says that begins with the name of a player.
fn read_of_a_player(text: &[u8]) -> Option<Report<'_>>
    ensures { IfSome result (λ report. IsNameOrNone report.name.now) }
{
    let (name, rest) = split(text, b' ');
    let found = first_of(of_a_player(), rest?)?;
    Some(found.of(Name::new(name)?.bytes()))
}

/// What a text of the server says, if it says anything that is known: by the first shape that it has.
pub fn read_report(text: &[u8]) -> Option<Report<'_>>
    ensures { IfSome result (λ report. IsNameOrNone report.name.now) }
{
    let text = without_spaces(text);
    if let Some(found) = first_of(others(), text) {
        return Some(found.of(b""));
    }
    if let Some(report) = read_with_a_player(text) {
        return Some(report);
    }
    if let Some(report) = read_naming(text) {
        return Some(report);
    }
    read_of_a_player(text)
}

/// What a text of the server says of what the user waits for, if it says anything of it.
pub fn read_told(text: &[u8]) -> Option<Report<'_>>
    ensures { IfSome result (λ report. IsTold report) }
{
    let report = read_report(text)?;
    if report.told == Told::Else {
        return None;
    }
    Some(report)
}
