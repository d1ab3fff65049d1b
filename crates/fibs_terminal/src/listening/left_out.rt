//! Which lines of the server are not shown as they came: each for a reason that has a name. All others are shown.
ghost use Rattle.std.specs.Prelude.{◌≡◌};
ghost use Rattle.fibs_terminal.specs.LeftOut.{change_left_out, coming_left_out, is_cant_move, is_hinted, is_next_game, message_left_out, player_of, shout_left_out, talk_left_out, text_left_out};

use fibs_messages::Message;

/// Why a line of the server is not shown as it came.
#[derive(Clone, Copy, Debug, PartialEq, Eq)]
pub enum LeftOut {
    /// It is empty.
    Empty,
    /// The hint below it says the same.
    Hinted,
    /// The board that came last has said the same: the user can't move.
    Passing,
    /// The board at the end of the game has said the same.
    Ended,
    /// The row below it says the same: how the next game begins.
    NextGame,
    /// How one accepts an invitation was said with it.
    Invited,
    /// It answers a command that the client has sent by itself at the login.
    Answered,
    /// Its words are in the row that ends the login.
    Login,
    /// It only ends the message of the day.
    MotdEnd,
    /// It is of a list of players, which is counted, and which `players` shows.
    Listed,
    /// The server lists the user himself anew.
    Own,
    /// Its player is gagged.
    Gagged,
    /// The screen is quiet.
    Quiet,
    /// During a match a player comes, goes or changes with whom the user has nothing to do.
    Coming,
}

/// What is known when a text of the server comes.
#[derive(Clone, Copy)]
pub struct Known {
    /// Whether the board that came last shows that the user can't move.
    pub passes: bool,
    /// Whether the board of the game's end has told what this text says.
    pub is_ended: bool,
    /// Whether the next game waits for the user.
    pub is_next: bool,
    /// Whether the row of an invitation has told what this text says.
    pub is_invited: bool,
    /// Whether it answers a command that the client has sent by itself.
    pub is_answer: bool,
}

/// How a player stands to the user, and what the user wants to see.
#[derive(Clone, Copy)]
pub struct Seen {
    /// Whether the player is gagged.
    pub is_gagged: bool,
    /// Whether the player is the user himself.
    pub is_own: bool,
    /// Whether the user has to do with the player: he is the opponent, invites, has talked with the user, or a match
    /// with him is saved.
    pub is_known: bool,
    /// Whether the screen is quiet.
    pub is_quiet: bool,
    /// Whether the user wants to see who comes and goes, whatever he does.
    pub arrivals: bool,
    /// Whether the user is in a match.
    pub is_in_match: bool,
    /// Whether the row that ends the login is still to come.
    pub logs_in: bool,
}

/// Whether a text says no more than the hint does that comes below it.
fn is_hinted(said: &[u8]) -> bool
    ensures { result ≡ is_hinted said.now }
{
    said == b"It's your turn to move.".as_slice()
        || said == b"It's your turn to roll.".as_slice()
        || said == b"It's your turn to roll or double.".as_slice()
        || said == b"It's your turn. Please roll.".as_slice()
        || said == b"It's your turn. Please roll or double".as_slice()
        || said == b"It's your turn. Please roll or double.".as_slice()
        || said == b"Please move 1 piece.".as_slice()
        || said == b"Please move 2 pieces.".as_slice()
        || said == b"Please move 3 pieces.".as_slice()
        || said == b"Please move 4 pieces.".as_slice()
}

/// Whether a text says that the user can't move.
fn is_cant_move(said: &[u8]) -> bool
    ensures { result ≡ is_cant_move said.now }
{
    said == b"You can't move.".as_slice()
}

/// Whether a text says how the next game begins.
fn is_next_game(said: &[u8]) -> bool
    ensures { result ≡ is_next_game said.now }
{
    said == b"Type 'join' if you want to play the next game, type 'leave' if you don't.".as_slice()
}

/// Why a text of the server is not shown; None if it is. It has no spaces at its end.
pub fn text_left_out(said: &[u8], known: &Known) -> Option<LeftOut>
    ensures { result ≡ text_left_out said.now known.now }
{
    if said.len() == 0 {
        Some(LeftOut::Empty)
    } else if is_hinted(said) {
        Some(LeftOut::Hinted)
    } else if known.passes && is_cant_move(said) {
        Some(LeftOut::Passing)
    } else if known.is_ended {
        Some(LeftOut::Ended)
    } else if known.is_next && is_next_game(said) {
        Some(LeftOut::NextGame)
    } else if known.is_invited {
        Some(LeftOut::Invited)
    } else if known.is_answer {
        Some(LeftOut::Answered)
    } else {
        None
    }
}

/// Why talk is not shown.
fn talk_left_out(seen: &Seen) -> Option<LeftOut>
    ensures { result ≡ talk_left_out seen.now }
{
    if seen.is_gagged {
        Some(LeftOut::Gagged)
    } else {
        None
    }
}

/// Why it is not shown that a player comes or goes.
fn coming_left_out(seen: &Seen) -> Option<LeftOut>
    ensures { result ≡ coming_left_out seen.now }
{
    if seen.is_gagged {
        Some(LeftOut::Gagged)
    } else if seen.arrivals {
        None
    } else if seen.is_quiet {
        Some(LeftOut::Quiet)
    } else if seen.is_in_match && !seen.is_known {
        Some(LeftOut::Coming)
    } else {
        None
    }
}

/// Why it is not shown that a player has changed, for which the user has not asked.
pub fn change_left_out(seen: &Seen) -> Option<LeftOut>
    ensures { result ≡ change_left_out seen.now }
{
    if seen.is_own {
        Some(LeftOut::Own)
    } else {
        coming_left_out(seen)
    }
}

/// Why a shout is not shown.
fn shout_left_out(seen: &Seen) -> Option<LeftOut>
    ensures { result ≡ shout_left_out seen.now }
{
    if seen.is_gagged {
        Some(LeftOut::Gagged)
    } else if seen.is_quiet {
        Some(LeftOut::Quiet)
    } else {
        None
    }
}

/// The player of whom a message tells, if what is shown of it depends on him.
pub fn player_of<'a>(message: &Message<'a>) -> &'a [u8]
    ensures { result.now ≡ player_of message.now }
{
    match message {
        Message::Login { name, .. }
        | Message::Logout { name, .. }
        | Message::Says { name, .. }
        | Message::Shouts { name, .. }
        | Message::Whispers { name, .. }
        | Message::Kibitzes { name, .. } => name.bytes(),
        Message::MessageReceived { sender, .. } => sender.bytes(),
        _ => b"",
    }
}

/// Why a message is not shown; None if it is.
pub fn message_left_out(message: &Message<'_>, seen: &Seen) -> Option<LeftOut>
    ensures { result ≡ message_left_out message.now seen.now }
{
    match message {
        Message::OwnInfo(_) if seen.logs_in => Some(LeftOut::Login),
        Message::MotdEnd => Some(LeftOut::MotdEnd),
        Message::WhoInfo(_) | Message::WhoInfoEnd => Some(LeftOut::Listed),
        Message::Login { .. } | Message::Logout { .. } => coming_left_out(seen),
        Message::Shouts { .. } => shout_left_out(seen),
        Message::MessageReceived { .. }
        | Message::Says { .. }
        | Message::Whispers { .. }
        | Message::Kibitzes { .. } => talk_left_out(seen),
        Message::Welcome { .. }
        | Message::OwnInfo(_)
        | Message::MotdBegin
        | Message::MessageDelivered { .. }
        | Message::MessageSaved { .. }
        | Message::YouSay { .. }
        | Message::YouShout { .. }
        | Message::YouWhisper { .. }
        | Message::YouKibitz { .. } => None,
    }
}
