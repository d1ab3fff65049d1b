//! What the user waits for, of whom, and on what. Each part is in the box of what it is of: a connection, an opponent,
//! a game, a turn, an invitation. When that ends its box is replaced by a new one.
ghost use Rattle.std.specs.Prelude.{◌≡◌, ◌≢◌, ◌≤◌, ◌↔◌, ◌⊎◌, length, true, false, None, Some, IfSome, IsTrue, is_some};
ghost use Rattle.arrayvec.specs.ArrayVec.{array_vec_len};
ghost use Rattle.fibs_position.specs.GameOf.{game_of};
ghost use Rattle.fibs_position.specs.Phases.{phase_of};
ghost use Rattle.fibs_advice.specs.Situations.{GivesNoTurn, IsNewOpponent, KeepsName, NamedAlone, SaysTurnOf, denies_another, game_after, goes_on, hides_turn, inviter_of, kept_of, left_by, left_told, met, new_game, new_turn, no_name, open_offer, opened_with, opponent_of, shown_on, tells_turn, turn_noted, waiting_after};
ghost use Rattle.fibs_advice.specs.Standings.{after_confirmed, after_not_invited, is_called, is_owed, is_undoubled};

mod lines;

use crate::match_state::{is_match_over, says_turn_of, tells_turn};
use crate::situation::lines::{decision_in, is_answer};
use crate::standing::{Shown, Standing};
use arrayvec::ArrayVec;
use fibs_events::told::{Report, Told, read_told};
use fibs_fields::trailing_spaces::without_spaces;
use fibs_lines::LOGIN_PROMPT;
use fibs_position::{GameBoard, Phase};
use std::mem;

/// The name of a player, kept; empty if none is known.
pub type KeptName = ArrayVec<u8, 64>;

/// A decision that the client has sent, and that no board has confirmed.
#[derive(Clone, Copy, Debug, PartialEq, Eq)]
enum Waiting {
    /// There is none.
    Nothing,
    /// It is an offer.
    Offer,
    /// It is another one.
    Other,
}

/// An offer that was open when the match was left or the connection ended, and of which nothing was heard since.
#[derive(Clone, Copy, Debug, PartialEq, Eq)]
enum Left {
    /// There is none.
    Nothing,
    /// It is the opponent's.
    Theirs,
    /// It is the user's.
    Own,
}

/// What was asked by `board`, and not answered.
#[derive(Clone, Copy, Debug, PartialEq, Eq)]
enum BoardAsked {
    /// Nothing.
    Nothing,
    /// The board that comes, which says what the state is.
    Now,
    /// The same, before a line went as it is that decides, or a text came that may be the answer: the board says
    /// nothing of that.
    Before,
}

/// A turn: what the board that came last says of it.
#[derive(Clone, Copy)]
struct Turn {
    /// Whether the user was to roll or to move on that board, until the opponent plays.
    shown: Option<Told>,
    /// Whether the user has the turn and has not decided, as far as is known. No offer of the opponent ends that.
    is_due: bool,
}

/// A game.
#[derive(Clone, Copy)]
struct Game {
    /// Whether the server has refused a double in it.
    refuses_double: bool,
    /// Whether a text has said who has the turn since it came on the table.
    is_followed: bool,
    /// Whether the server has said no more of that than that the opponent has the turn, when the match was resumed.
    is_his: bool,
    /// The turn.
    turn: Turn,
}

/// An opponent, and the match with him.
#[derive(Drop)]
pub struct Opponent {
    /// Who he is, by the board that came last, else by a text; empty if that is not known.
    pub name: KeptName,
    /// Whether he has logged in on this connection, and not out again. Servers need not list him then.
    pub is_here: bool,
    /// An offer of which nothing is known any more.
    left: Left,
    /// The game that is on the table, or was last.
    game: Game,
}

/// An invitation.
#[derive(Drop)]
pub struct Inviter {
    /// Who invites the user; empty if nobody does.
    pub name: KeptName,
    /// Whether that was said with the line to type.
    pub is_told: bool,
}

/// What outlives a connection.
#[derive(Drop)]
pub struct Kept {
    /// The opponent of the match that may have been saved.
    opponent: KeptName,
    /// The offer that was open in it.
    left: Left,
}

/// What the user waits for on a connection, and what of it the client does not know.
#[derive(Drop)]
pub struct Situation {
    /// What the user waits for.
    pub standing: Standing,
    /// The opponent, and the match with him.
    pub opponent: Opponent,
    /// The invitation.
    pub inviter: Inviter,
    /// What was asked by `board`.
    asked: BoardAsked,
    /// What waits.
    waiting: Waiting,
    /// Whether a login was sent on this connection, and the server has not greeted the user.
    logs_in: bool,
    /// Whether a message has come since that is not the greeting.
    hears_others: bool,
    /// Whether the message of the day is being said: its lines may have any words.
    pub is_motd: bool,
}

impl Turn {
    /// Nothing is known of it.
    fn new() -> Turn
        ensures { result ≡ new_turn }
    {
        Turn {
            shown: None,
            is_due: false,
        }
    }
}

impl Game {
    /// None of its boards has come.
    fn new() -> Game
        ensures { result ≡ new_game }
    {
        Game {
            refuses_double: false,
            is_followed: false,
            is_his: false,
            turn: Turn::new(),
        }
    }
}

impl Opponent {
    /// A match of which nothing is known but the opponent, and the offer that was left open in it.
    fn of(name: KeptName, left: Left) -> Opponent
        ensures { result ≡ opponent_of name left }
    {
        Opponent {
            name,
            is_here: false,
            left,
            game: Game::new(),
        }
    }
}

impl Inviter {
    /// Who invites the user; nothing was said of it.
    fn of(name: KeptName) -> Inviter
        ensures { result ≡ inviter_of name }
    {
        Inviter {
            name,
            is_told: false,
        }
    }
}

/// No name.
pub fn nobody() -> KeptName
    ensures { result ≡ no_name }
{
    KeptName::new()
}

/// A name that is kept.
pub fn kept_name(name: &[u8]) -> KeptName
    ensures { length name.now ≤ 64 → result.items ≡ name.now }
{
    let mut kept = KeptName::new();
    let _fits = kept.try_extend_from_slice(name);
    kept
}

/// Whether two names are the same.
pub fn is_same(name: &[u8], other: &[u8]) -> bool
    ensures { IsTrue result ↔ (name.now ≡ other.now) }
{
    name == other
}

impl Situation {
    /// Nothing was said.
    pub fn new() -> Situation
        ensures standing { result.standing ≡ Standing.Free }
        ensures opponent { result.opponent ≡ opponent_of no_name Left.Nothing }
        ensures login { result.logs_in ≡ false }
        ensures waiting { result.waiting ≡ Waiting.Nothing }
    {
        let mut situation = Situation::opened(Kept {
            opponent: nobody(),
            left: Left::Nothing,
        });
        situation.logs_in = false;
        situation
    }

    /// A connection was made, on which nothing waits: after another one, of which this is kept.
    pub fn opened(kept: Kept) -> Situation
        ensures { result ≡ opened_with kept }
    {
        Situation {
            standing: if kept.opponent.is_empty() {
                Standing::Free
            } else {
                Standing::Reopened
            },
            opponent: Opponent::of(kept.opponent, kept.left),
            inviter: Inviter::of(nobody()),
            asked: BoardAsked::Nothing,
            waiting: Waiting::Nothing,
            logs_in: true,
            hears_others: false,
            is_motd: false,
        }
    }

    /// What outlives the connection.
    pub fn close(&mut self) -> Kept
        ensures { result ≡ kept_of self.old }
    {
        Kept {
            left: self.open_offer(),
            opponent: mem::replace(&mut self.opponent.name, nobody()),
        }
    }

    /// Whether `board` was sent after the last decision, and has not been answered.
    pub fn asks_board(&self) -> bool
        ensures { IsTrue result ↔ (self.now.asked ≡ BoardAsked.Now) }
    {
        self.asked == BoardAsked::Now
    }

    /// Whether a board that comes now was asked for.
    pub fn awaits_board(&self) -> bool
        ensures { IsTrue result ↔ (self.now.asked ≢ BoardAsked.Nothing) }
    {
        self.asked != BoardAsked::Nothing
    }

    /// The server has answered `board` by something else than a board of the user's game. True if that was asked after
    /// the last decision. The text that the next game waits may have come by itself: then a board may follow.
    pub fn hear_no_board(&mut self, may_follow: bool) -> bool
        ensures asks { IsTrue result ↔ (self.old.asked ≡ BoardAsked.Now) }
        ensures answered { self.new.asked ≢ BoardAsked.Now }
        ensures ends { may_follow ≡ false → self.new.asked ≡ BoardAsked.Nothing }
        ensures kept { self.new ≡ record self.old { asked = self.new.asked } }
    {
        let asks = self.asks_board();
        self.asked = if may_follow && self.awaits_board() {
            BoardAsked::Before
        } else {
            BoardAsked::Nothing
        };
        asks
    }

    /// Whether the server has refused a double in this game.
    pub fn refuses_double(&self) -> bool
        ensures { result ≡ self.now.opponent.game.refuses_double }
    {
        self.opponent.game.refuses_double
    }

    /// Whether the user has the turn and has not decided, as far as is known.
    pub(crate) fn is_due(&self) -> bool
        ensures { result ≡ self.now.opponent.game.turn.is_due }
    {
        self.opponent.game.turn.is_due
    }

    /// The server has greeted the user.
    pub fn hear_welcome(&mut self)
        ensures { self.new ≡ record self.old { logs_in = false } }
    {
        self.logs_in = false;
    }

    /// A player has logged in.
    pub fn hear_login(&mut self, name: &[u8])
        ensures here { self.old.opponent.name.items ≡ name.now → self.new.opponent.is_here ≡ true }
        ensures others { self.old.opponent.name.items ≢ name.now → self.new.opponent ≡ self.old.opponent }
        ensures standing { self.new.standing ≡ self.old.standing }
        ensures heard { self.new.hears_others ≡ true }
    {
        self.hears_others = true;
        if is_same(self.opponent.name.as_slice(), name) {
            self.opponent.is_here = true;
        }
    }

    /// A player has logged out: nobody is invited by him any more.
    pub fn hear_logout(&mut self, name: &[u8])
        ensures left { self.old.opponent.name.items ≡ name.now → self.new.opponent.is_here ≡ false }
        ensures over { self.old.inviter.name.items ≡ name.now →
            self.new.standing ≡ after_not_invited self.old.standing }
    {
        self.hears_others = true;
        if is_same(self.opponent.name.as_slice(), name) {
            self.opponent.is_here = false;
        }
        if is_same(self.inviter.name.as_slice(), name) {
            self.wait_for(self.standing.after_not_invited());
        }
    }

    /// What the user waits for from now on. An invitation ends when he waits for something else.
    fn wait_for(&mut self, standing: Standing)
        ensures standing { self.new.standing ≡ standing }
        ensures opponent { self.new.opponent ≡ self.old.opponent }
        ensures invited { standing ≢ Standing.Invited → self.new.inviter ≡ inviter_of no_name }
    {
        if standing != Standing::Invited {
            self.inviter = Inviter::of(nobody());
        }
        self.standing = standing;
    }

    /// The user has decided: nothing that was left open before counts.
    fn end_turn(&mut self)
        ensures left { self.new.opponent.left ≡ Left.Nothing }
        ensures due { self.new.opponent.game.turn.is_due ≡ false }
        ensures asked { self.new.asked ≡ self.old.asked }
        ensures once { is_called self.new.standing ≡ false }
        ensures waiting { self.new.waiting ≡ self.old.waiting }
    {
        self.opponent.left = Left::Nothing;
        self.opponent.game.turn.is_due = false;
        self.standing = self.standing.after_sent();
    }

    /// The message of the day begins, or ends.
    pub fn hear_motd(&mut self, begins: bool)
        ensures { self.new ≡ record self.old { is_motd = begins } }
    {
        self.is_motd = begins;
    }

    /// Whether the login was refused, by the line that has not ended: the server asks for it, or has said something
    /// else in place of the greeting, though there was time for it.
    pub fn is_login_refused(&self, unfinished: &[u8], had_time: bool) -> bool
        ensures { IsTrue result → self.now.logs_in ≡ true }
    {
        self.logs_in && (unfinished.ends_with(LOGIN_PROMPT) || (self.hears_others && had_time))
    }

    /// The user has sent a command, and the client has taken note of it. True if it is a decision.
    pub fn hear_sent(&mut self, command: &[u8]) -> bool
        ensures left { IsTrue result → self.new.opponent.left ≡ Left.Nothing }
        ensures due { IsTrue result → self.new.opponent.game.turn.is_due ≡ false }
        ensures asked { IsTrue result → self.new.asked ≡ BoardAsked.Nothing }
        // It calls for no decision: only what the server says does.
        ensures own { is_called self.new.standing ≡ true → self.new.standing ≡ self.old.standing }
        ensures decides { result ≡ is_some (waiting_after command.now) }
        ensures waits { IfSome (waiting_after command.now) (λ waiting. self.new.waiting ≡ waiting) }
    {
        if let Some(waiting) = decision_in(command) {
            self.waiting = waiting;
            self.asked = BoardAsked::Nothing;
            self.end_turn();
            return true;
        }
        if command == b"board".as_slice() {
            self.asked = BoardAsked::Now;
        } else if command == b"bye".as_slice() {
            self.opponent.left = self.open_offer();
            self.standing = self.standing.after_bye();
        }
        false
    }

    /// The user has sent a line as it is.
    pub fn hear_passed(&mut self, line: &[u8])
        ensures own { is_called self.new.standing ≡ true → self.new.standing ≡ self.old.standing }
    {
        if is_answer(without_spaces(line)) {
            self.ask_before();
            self.standing = self.standing.after_answer();
        } else if decision_in(line).is_some() {
            self.ask_before();
            self.end_turn();
        }
    }

    /// The user has sent a decision past the client, on the server's word: until that says something new no second one
    /// is sent.
    pub fn hear_on_word(&mut self)
        ensures once { is_called self.new.standing ≡ false }
        ensures left { self.new.opponent.left ≡ Left.Nothing }
    {
        self.ask_before();
        let answers = self.standing.owes_answer();
        if answers {
            self.opponent.left = Left::Nothing;
            self.standing = self.standing.after_answer();
        } else {
            self.end_turn();
        }
    }

    /// What was asked by `board` was asked before what comes now.
    fn ask_before(&mut self)
        ensures standing { self.new.standing ≡ self.old.standing }
        ensures opponent { self.new.opponent ≡ self.old.opponent }
    {
        if self.asked == BoardAsked::Now {
            self.asked = BoardAsked::Before;
        }
    }

    /// Whether a text is of others: of a game that the user watches.
    fn is_of_others(&self, report: &Report<'_>) -> bool
        ensures { IsTrue result → self.now.opponent.name.items ≢ report.now.name.now }
    {
        report.told.is_of_opponent()
            && !self.opponent.name.is_empty()
            && !is_same(self.opponent.name.as_slice(), report.name)
    }

    /// Whether a text says that it is the user's turn, of the board on which the decision was made that was sent: it
    /// was on its way then.
    fn is_of_old_board(&self, told: Told) -> bool
        ensures { IsTrue result ↔ ((self.now.standing ≡ Standing.Asked)
            × (self.now.opponent.game.turn.shown ≡ Some told)) }
    {
        self.standing == Standing::Asked && self.opponent.game.turn.shown == Some(told)
    }

    /// The opponent is known by his name. With another one it is another match, of which nothing is known.
    fn meet(&mut self, name: &[u8])
        ensures same { self.old.opponent.name.items ≡ name.now → self.new ≡ self.old }
        ensures another { array_vec_len self.old.opponent.name ≢ 0 → self.old.opponent.name.items ≢ name.now →
            self.new ≡ met self.old self.new.opponent.name }
        ensures unknown { array_vec_len self.old.opponent.name ≡ 0 → NamedAlone self.old self.new }
    {
        if is_same(self.opponent.name.as_slice(), name) {
            return;
        }
        if self.opponent.name.is_empty() {
            self.opponent.name = kept_name(name);
        } else {
            self.opponent = Opponent::of(kept_name(name), Left::Nothing);
            self.standing = self.standing.after_another();
        }
    }

    /// The match with the opponent is over, or there is none.
    fn part(&mut self)
        ensures { self.new ≡ record self.old { opponent = opponent_of no_name Left.Nothing } }
    {
        self.opponent = Opponent::of(nobody(), Left::Nothing);
    }

    /// Keeps the name that a text has: of who invites the user, or of the opponent.
    fn keep_name_of(&mut self, report: &Report<'_>)
        ensures { tells_turn report.now.told ≡ true → NamedAlone self.old self.new }
    {
        match report.told {
            Told::Invited => self.keep_inviter(report.name),
            _ if report.name.is_empty() => {}
            Told::Begins | Told::Resumes | Told::Joined => self.meet(report.name),
            _ if self.opponent.name.is_empty() => self.meet(report.name),
            _ => {}
        }
    }

    /// Keeps who invites the user. By another one it is another invitation.
    fn keep_inviter(&mut self, name: &[u8])
        ensures same { self.old.inviter.name.items ≡ name.now → self.new ≡ self.old }
        ensures another { self.old.inviter.name.items ≢ name.now →
            self.new ≡ record self.old { inviter = inviter_of self.new.inviter.name } }
        ensures name { length name.now ≤ 64 → self.new.inviter.name.items ≡ name.now }
    {
        if self.inviter.name.as_slice() != name {
            self.inviter = Inviter::of(kept_name(name));
        }
    }

    /// Hears a text of the server. What it says of the match, if it says anything that counts.
    pub fn hear_text(&mut self, text: &[u8]) -> Option<Told>
        ensures game { (result ≡ Some Told.Begins) ⊎ (result ≡ Some Told.Resumes) → self.new.opponent.game ≡ new_game }
        // An offer to resign is known then, and a turn that is shown for it is not called the user's.
        ensures offered { result ≡ Some Told.Resigns → is_owed self.new.standing ≡ true × GivesNoTurn self.new }
        // A text that says nothing that counts changes nothing, and no line of the message of the day counts.
        ensures unheard { result ≡ None → self.new ≡ self.old }
        ensures motd { self.old.is_motd ≡ true → result ≡ None }
        // One that says the turn of the board on which the user has decided does not count: it was on its way.
        ensures old { self.old.standing ≡ Standing.Asked →
            IfSome result (λ told. self.old.opponent.game.turn.shown ≢ Some told) }
        ensures turn { IfSome result (λ told. tells_turn told ≡ true → self.new.opponent.game
            ≡ game_after told self.old.standing self.old.waiting self.old.opponent.game) }
        // The offer that is open when the match ends without a winner is kept; a game that begins has none.
        ensures left { (result ≡ Some Told.Saved) ⊎ (result ≡ Some Told.NotPlaying) →
            self.new.opponent.left ≡ open_offer self.old }
        ensures anew { result ≡ Some Told.Begins → self.new.opponent.left ≡ Left.Nothing }
    {
        if self.is_motd {
            return None;
        }
        let report = read_told(text)?;
        if self.is_of_others(&report) || self.is_of_old_board(report.told) {
            return None;
        }
        self.hear_report(&report);
        Some(report.told)
    }

    /// Hears a text that may say who has the turn in a match that is resumed.
    pub fn hear_turn(&mut self, text: &[u8])
        ensures standing { self.new.standing ≡ self.old.standing }
        ensures his { self.new.opponent.game.is_his ≡ true →
            (self.old.opponent.game.is_his ≡ true) ⊎ SaysTurnOf text.now self.old.opponent.name.items }
    {
        let is_anew = self.standing == Standing::Anew && !self.is_motd;
        if is_anew && says_turn_of(text, self.opponent.name.as_slice()) {
            self.opponent.game.is_his = true;
        }
    }

    /// Takes note of what a text says of the turn. A decision that is refused while one waits is the one that waits,
    /// unless an offer was just answered.
    fn note_turn(&mut self, told: Told)
        ensures noted { self.new ≡ turn_noted told self.old }
        ensures resigns { told ≡ Told.Resigns → self.new ≡ self.old }
    {
        let turn = self.opponent.game.turn;
        let is_due = match told {
            Told::ToRoll | Told::ToMove => true,
            Told::Refused | Told::NoDouble | Told::MustAnswer
                if self.waiting != Waiting::Nothing && self.standing != Standing::Answered => true,
            // no offer was open that gave the turn away
            Told::NoOffer if self.standing.has_offer() => turn.shown.is_some(),
            Told::Plays => false,
            _ => turn.is_due,
        };
        let shown = if told == Told::Plays {
            None
        } else {
            turn.shown
        };
        self.opponent.game.turn = Turn { shown, is_due };
        if tells_turn(told) {
            self.opponent.game.is_followed = true;
            self.opponent.game.is_his = false;
        }
    }

    /// The offer that is open, or of which nothing is known any more.
    fn open_offer(&self) -> Left
        ensures { result ≡ open_offer self.now }
    {
        match (self.standing, self.waiting) {
            (Standing::Offered, _) | (Standing::Asked, Waiting::Offer) => Left::Own,
            _ if self.standing.has_offer() => Left::Theirs,
            _ => self.opponent.left,
        }
    }

    /// The offer of which nothing is known after a text.
    fn left_after(&self, report: &Report<'_>) -> Left
        ensures { result ≡ left_told report.now.told report.now.name.now self.now }
    {
        match report.told {
            Told::Saved | Told::NotPlaying => self.open_offer(),
            Told::Resumes if self.opponent.name.as_slice() == report.name => self.opponent.left,
            Told::Invited | Told::NotInvited => self.opponent.left,
            _ => Left::Nothing,
        }
    }

    /// Whether a text denies a match or an invitation of another player than of whom one is known.
    fn denies_another(&self, report: &Report<'_>) -> bool
        ensures begins { report.now.told ≡ Told.Begins → result ≡ false }
        ensures resumes { report.now.told ≡ Told.Resumes → result ≡ false }
        ensures resigns { report.now.told ≡ Told.Resigns → result ≡ false }
        ensures denies { result ≡ denies_another report.now.told report.now.name.now self.now }
    {
        match report.told {
            Told::NoMatch => self.opponent.name.as_slice() != report.name,
            Told::NotInvited => {
                !report.name.is_empty() && self.inviter.name.as_slice() != report.name
            }
            _ => false,
        }
    }

    /// Whether the name that a text has is to be kept, after which the user waits for this.
    fn keeps_name(&self, told: Told, after: Standing) -> bool
        ensures { IsTrue result ↔ KeepsName told self.now.standing after }
    {
        match told {
            Told::Begins | Told::Resumes => true,
            Told::Invited => after == Standing::Invited,
            _ => after != self.standing,
        }
    }

    /// Hears what a text says.
    fn hear_report(&mut self, report: &Report<'_>)
        ensures begins { report.now.told ≡ Told.Begins → self.new.opponent.game ≡ new_game }
        ensures resumes { report.now.told ≡ Told.Resumes → self.new.opponent.game ≡ new_game }
        ensures offered { report.now.told ≡ Told.Resigns → is_owed self.new.standing ≡ true }
        ensures given { report.now.told ≡ Told.Resigns → GivesNoTurn self.new }
        ensures turn { tells_turn report.now.told ≡ true →
            self.new.opponent.game ≡ game_after report.now.told self.old.standing self.old.waiting
            self.old.opponent.game }
        ensures denied { denies_another report.now.told report.now.name.now self.old ≡ true → self.new ≡ self.old }
        ensures left { denies_another report.now.told report.now.name.now self.old ≡ false →
            self.new.opponent.left ≡ left_told report.now.told report.now.name.now self.old }
    {
        if self.denies_another(report) {
            return;
        }
        let left = self.left_after(report);
        self.note_turn(report.told);
        let after = self.standing.after(report.told);
        if self.keeps_name(report.told, after) {
            self.keep_name_of(report);
        }
        self.opponent.left = left;
        match report.told {
            Told::Begins | Told::Resumes => self.opponent.game = Game::new(),
            Told::NoDouble => self.opponent.game.refuses_double = true,
            Told::MatchOver if after != self.standing => self.part(),
            Told::NoMatch if !self.standing.is_in_match() => self.part(),
            _ => {}
        }
        self.wait_for(after);
        self.note_given_turn();
    }

    /// What a board says to who waits.
    fn shown_by(&self, game: &GameBoard) -> Shown
        ensures shown { result ≡ shown_on (game_of game.now) self.now.waiting }
        ensures undoubled { goes_on (phase_of (game_of game.now)) ≡ true → is_undoubled result ≡ true }
    {
        match (game.phase(), self.waiting) {
            (Phase::Over, _) if is_match_over(game.board()) => Shown::MatchOver,
            (Phase::Over, _) => Shown::GameOver,
            (Phase::AnswerDouble, Waiting::Nothing) => Shown::Double,
            (Phase::AnswerDouble, _) => Shown::DoubleStands,
            (_, Waiting::Nothing) => Shown::Plain,
            (_, Waiting::Offer) => Shown::OfferStands,
            (_, Waiting::Other) => Shown::Stands,
        }
    }

    /// Hears a board of the user's game. If it confirms the decision that waits, that is said next.
    pub fn hear_board(&mut self, game: &GameBoard)
        ensures another { array_vec_len self.old.opponent.name ≢ 0 →
            self.old.opponent.name.items ≢ (game_of game.now).opponent → IsNewOpponent self.new.opponent }
        ensures asked { self.new.asked ≡ BoardAsked.Nothing }
        // While an offer to resign is open no board of the game that goes on ends that, and none makes a turn the
        // user's that it may show for the offer.
        ensures offered { self.old.opponent.name.items ≡ (game_of game.now).opponent →
            goes_on (phase_of (game_of game.now)) ≡ true → is_owed self.old.standing ≡ true →
            is_owed self.new.standing ≡ true × GivesNoTurn self.new }
        // Before a text has said who has the turn, no board without dice makes it the user's.
        ensures unfollowed { self.old.opponent.name.items ≡ (game_of game.now).opponent →
            self.old.opponent.game.is_followed ≡ false → self.old.opponent.game.turn.is_due ≡ false →
            self.new.opponent.game.turn.shown ≡ Some Told.ToRoll → self.new.opponent.game.turn.is_due ≡ false }
    {
        self.meet(game.board().opponent().bytes());
        let shown = self.shown_by(game);
        self.wait_for(self.standing.after_board(shown, self.asks_board()));
        self.asked = BoardAsked::Nothing;
        self.opponent.game.turn.shown = match game.phase() {
            Phase::RollOrDouble => Some(Told::ToRoll),
            Phase::Move => Some(Told::ToMove),
            Phase::Over | Phase::AnswerDouble | Phase::OpponentActs | Phase::Passing => None,
        };
        self.opponent.game.turn.is_due = self.is_due_now();
        self.note_given_turn();
        self.note_his_turn(game.phase());
        self.note_left(game.phase());
    }

    /// Takes note of a turn before the dice that a board gives to the user, though the server has said that the
    /// opponent has it: so an offer of his may be open, of which nothing is known.
    fn note_his_turn(&mut self, phase: Phase)
        ensures { self.new ≡ record self.old {
          opponent = record self.old.opponent {
            left = left_by self.old.opponent.game.is_his phase self.old.opponent.left;
          };
        } }
    {
        if self.opponent.game.is_his && phase == Phase::RollOrDouble {
            self.opponent.left = Left::Theirs;
        }
    }

    /// Takes note of an offer of which nothing is known any more. The opponent may wait for the answer to his if a
    /// board shows that he has the turn, or gives it to the user before the dice; he may still have the user's while
    /// that has the turn. Else the board says what is to be done.
    fn note_left(&mut self, phase: Phase)
        ensures here { self.new.opponent.is_here ≡ self.old.opponent.is_here }
        ensures left { self.old.opponent.left ≡ Left.Nothing → self.new.opponent.left ≡ Left.Nothing }
        ensures double { self.new.opponent.game.refuses_double ≡ self.old.opponent.game.refuses_double }
        ensures asked { self.new.asked ≡ self.old.asked }
        ensures owed { is_owed self.old.standing ≡ true → self.new.standing ≡ self.old.standing }
        ensures given { GivesNoTurn self.old → GivesNoTurn self.new }
        ensures shown { self.new.opponent.game.turn.shown ≡ self.old.opponent.game.turn.shown }
        ensures due { self.old.opponent.game.turn.is_due ≡ false → self.new.opponent.game.turn.is_due ≡ false }
    {
        let (left, unsure) = match (self.opponent.left, phase) {
            (Left::Theirs, Phase::OpponentActs | Phase::RollOrDouble) => (
                Left::Theirs,
                Standing::Unsettled,
            ),
            (Left::Own, Phase::RollOrDouble | Phase::Move) => (Left::Own, Standing::Unanswered),
            _ => (Left::Nothing, self.standing),
        };
        self.opponent.left = left;
        if left != Left::Nothing && self.standing == Standing::Playing {
            self.standing = unsure;
            self.opponent.game.turn.is_due = false;
        }
    }

    /// Takes note of a turn that a board gives away below an offer to resign: the user had none, and has no dice.
    fn note_given_turn(&mut self)
        ensures opponent { self.new.opponent ≡ self.old.opponent }
        ensures asked { self.new.asked ≡ self.old.asked }
        ensures owed { is_owed self.new.standing ≡ is_owed self.old.standing }
        ensures given { GivesNoTurn self.new }
    {
        let turn = self.opponent.game.turn;
        self.standing = match (self.standing, turn.shown) {
            (Standing::Resigned | Standing::Owed, Some(Told::ToRoll)) if !turn.is_due =>
                Standing::Conceded,
            (Standing::Conceded, Some(Told::ToMove)) => Standing::Resigned,
            _ => self.standing,
        };
    }

    /// Whether the board that came last may show an offer to resign as a turn given away: then the user's dice alone
    /// say that the turn is his. One is open or was just answered; or no text has said who has the turn since the game
    /// came on the table, and one that was open then is told after its board.
    fn hides_turn(&self) -> bool
        ensures { result ≡ hides_turn self.now.standing self.now.opponent.game }
    {
        match self.opponent.game.turn.shown {
            Some(Told::ToMove) => false,
            Some(Told::ToRoll) if !self.opponent.game.is_followed => true,
            _ => self.standing.owes_answer() || self.standing == Standing::Answered,
        }
    }

    /// Whether the user has the turn after a board, if no decision waits that was made before it.
    fn is_due_now(&self) -> bool
        ensures { hides_turn self.now.standing self.now.opponent.game ≡ true →
            result ≡ self.now.opponent.game.turn.is_due }
    {
        let turn = self.opponent.game.turn;
        if self.hides_turn() || (self.waiting != Waiting::Nothing && !self.standing.repeats()) {
            turn.is_due
        } else {
            turn.shown.is_some()
        }
    }

    /// The board that came last confirms the decision that waited.
    pub fn hear_confirmed(&mut self)
        ensures waiting { self.new.waiting ≡ Waiting.Nothing }
        ensures standing { self.new.standing ≡ after_confirmed self.old.standing }
        ensures inviter { self.new.inviter ≡ self.old.inviter }
        ensures left { self.new.opponent.left ≡ self.old.opponent.left }
    {
        self.waiting = Waiting::Nothing;
        self.standing = self.standing.after_confirmed();
        self.opponent.game.turn.is_due = self.is_due_now();
    }
}
