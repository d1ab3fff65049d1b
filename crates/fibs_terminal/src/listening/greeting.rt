//! The login: what answers the commands that the client sends by itself, and the row that ends it, which says who is
//! there and what to type next.
ghost use Rattle.std.specs.Prelude.{◌≡◌, ◌&&◌, ◌||◌, not, true, false};
ghost use Rattle.fibs_terminal.specs.Greetings.{Informs, IsHeard, is_answered, is_due, new_greeting, says_not_playing, tells_autoboard, tells_moreboards, tells_style};

use fibs_messages::OwnInfo;
use fibs_messages::laws::flags_are_the_fields;

/// What of a login has not come yet.
#[derive(Clone, Copy)]
pub struct Greeting {
    /// Whether message 2 has come: the client has then sent all its first commands.
    is_informed: bool,
    /// Whether `set boardstyle 3` was sent, and not answered.
    style: bool,
    /// The same of `toggle autoboard`.
    autoboard: bool,
    /// The same of `toggle moreboards`.
    moreboards: bool,
    /// The same of `board`.
    board: bool,
    /// Whether the players were listed.
    is_listed: bool,
    /// Whether the row that ends it was said.
    is_said: bool,
    /// Whether the server plays for the user by itself, by the settings that it has sent.
    plays_itself: bool,
}

/// Whether a text says that boards have style 3 now.
fn tells_style(said: &[u8]) -> bool
    ensures { result ≡ tells_style said.now }
{
    said == b"Value of 'boardstyle' set to 3.".as_slice()
}

/// Whether a text says that a board comes after each move now.
fn tells_autoboard(said: &[u8]) -> bool
    ensures { result ≡ tells_autoboard said.now }
{
    said == b"** The board will be refreshed after every move.".as_slice()
}

/// Whether a text says that a board comes after each roll now.
fn tells_moreboards(said: &[u8]) -> bool
    ensures { result ≡ tells_moreboards said.now }
{
    said == b"** Will send rawboards after rolling.".as_slice()
}

/// Whether a text says that there is no board, since the user is in no match.
fn says_not_playing(said: &[u8]) -> bool
    ensures { result ≡ says_not_playing said.now }
{
    said == b"** You're not playing.".as_slice()
        || said == b"** You are not playing.".as_slice()
        || said == b"** You're not watching or playing.".as_slice()
        || said == b"** Error: you are not playing.".as_slice()
}

impl Greeting {
    /// Nothing was sent.
    pub fn new() -> Greeting
        ensures { result ≡ new_greeting }
    {
        Greeting {
            is_informed: false,
            style: false,
            autoboard: false,
            moreboards: false,
            board: false,
            is_listed: false,
            is_said: false,
            plays_itself: false,
        }
    }

    /// Message 1 has come, by the first of which the client asks for boards of style 3.
    pub fn hear_welcome(&mut self)
        ensures { self.new ≡ record self.old { style = self.old.style || not self.old.is_informed } }
    {
        if !self.is_informed {
            self.style = true;
        }
    }

    /// Message 2 has come, by the first of which the client asks for boards, and for the board.
    pub fn hear_own_info(&mut self, info: &OwnInfo<'_>)
        ensures { Informs self.old info.now self.new }
    {
        flags_are_the_fields();
        if !self.is_informed {
            self.is_informed = true;
            self.autoboard = !info.autoboard;
            self.moreboards = !info.moreboards;
            self.board = true;
            self.plays_itself = info.automove || info.greedy;
        }
    }

    /// Whether message 2 has come.
    pub fn is_informed(&self) -> bool
        ensures { result ≡ self.now.is_informed }
    {
        self.is_informed
    }

    /// Whether a text answers a command that the client has sent by itself, and that was not answered.
    pub fn is_answered(&self, said: &[u8]) -> bool
        ensures { result ≡ is_answered self.now said.now }
    {
        (self.style && tells_style(said))
            || (self.autoboard && tells_autoboard(said))
            || (self.moreboards && tells_moreboards(said))
            || (self.board && says_not_playing(said))
    }

    /// Takes note of a text: what it answers is no longer to be answered. Any other text, once the players are listed
    /// and the others are answered, is the answer to `board`, whatever it says.
    pub fn hear_text(&mut self, said: &[u8])
        ensures heard { IsHeard self.old self.new }
        ensures style { tells_style said.now ≡ true → self.new.style ≡ false }
        ensures autoboard { tells_autoboard said.now ≡ true → (self.old.style && tells_style said.now) ≡ false →
            self.new.autoboard ≡ false }
        ensures board { self.new.board ≡ false → self.old.board ≡ true →
            (says_not_playing said.now || (self.old.is_listed && not self.old.style)) ≡ true }
    {
        if self.style && tells_style(said) {
            self.style = false;
        } else if self.autoboard && tells_autoboard(said) {
            self.autoboard = false;
        } else if self.moreboards && tells_moreboards(said) {
            self.moreboards = false;
        } else if says_not_playing(said) || (self.is_listed && !self.style) {
            self.board = false;
        }
    }

    /// A board has come.
    pub fn hear_board(&mut self)
        ensures { self.new ≡ record self.old { board = false } }
    {
        self.board = false;
    }

    /// The list of players that comes at the login has ended.
    pub fn hear_listed(&mut self)
        ensures { self.new ≡ record self.old { is_listed = true } }
    {
        self.is_listed = true;
    }

    /// Whether the row that ends the login is to be said now.
    pub fn is_due(&self) -> bool
        ensures { result ≡ is_due self.now }
    {
        self.is_listed && !self.board && !self.is_said
    }

    /// Whether the list of players that comes at the login is still to come.
    pub fn awaits_list(&self) -> bool
        ensures { result ≡ (self.now.is_informed && not self.now.is_listed) }
    {
        self.is_informed && !self.is_listed
    }

    /// Whether the server plays for the user by itself.
    pub fn plays_itself(&self) -> bool
        ensures { result ≡ self.now.plays_itself }
    {
        self.plays_itself
    }

    /// The row was said.
    pub fn settle(&mut self)
        ensures { self.new ≡ record self.old { is_said = true } }
    {
        self.is_said = true;
    }
}
