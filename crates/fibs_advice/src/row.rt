//! Rows: what is said to who plays, and what they name.
ghost use Rattle.std.specs.Prelude.{◌≡◌, option_map};
ghost use Rattle.fibs_commands.specs.PlainOf.{plain_value};
ghost use Rattle.fibs_advice.specs.Rows.{plain_in, answers, is_asked_for, names_way_on, opens_again, rolls_alone, shows_offers, words_before, words_after};

use fibs_commands::Plain;

/// What is said.
#[derive(Clone, Copy, Debug, PartialEq, Eq)]
pub enum Row {
    /// Nothing.
    Nothing,
    /// That the server asks for the login again.
    NotLoggedIn,
    /// What the client takes now.
    Offers,
    /// That the user may roll, and that the server has refused a double in this game.
    Undoubled,
    /// That the user may roll, and that his double was accepted.
    Accepted,
    /// That the server played by itself at the login, and how one plays oneself.
    ServerPlays,
    /// That the opponent offers to resign, and how that is answered.
    Resigns,
    /// The same, and nothing of what the board allows.
    Concedes,
    /// That the opponent waits for an answer, and how it is given.
    Owes,
    /// That the opponent may wait for an answer, how it is given, and how the game goes on if he does not.
    Unsettled,
    /// That the opponent may have to answer the user's offer, and how the game goes on if he has not.
    Unanswered,
    /// That the opponent doubles: the board has to say so first.
    Doubles,
    /// That it may be the user's turn: the board says it.
    Turn,
    /// How the game goes on if the opponent has declined.
    Declined,
    /// That a decision was refused: the board says what is left.
    Refused,
    /// How the game goes on, on the board that came again.
    Same,
    /// The same, if it is the user's turn.
    Back,
    /// That the opponent has not answered, and how the game goes on if it does.
    Thinks,
    /// What was sent, and how one asks what became of it.
    Waits,
    /// That the next game waits for `join`.
    Next,
    /// That the opponent has not joined.
    Joined,
    /// How a match that was saved is resumed.
    Saved,
    /// That its opponent is not here.
    Absent,
    /// How an invitation is accepted.
    Invited,
}

impl Row {
    /// Whether it says how an offer is answered of which texts alone tell.
    pub fn answers(self) -> bool
        ensures { result ≡ answers self }
    {
        matches!(
            self,
            Row::Resigns | Row::Concedes | Row::Owes | Row::Unsettled
        )
    }

    /// Whether it says what may be decided in place of the decision that waits.
    pub(crate) fn opens_again(self) -> bool
        ensures { result ≡ opens_again self }
    {
        matches!(self, Row::Declined | Row::Same | Row::Back)
    }

    /// The line that it names, if that has no argument and decides nothing.
    pub fn plain(self) -> Option<Plain<'static>>
        ensures { option_map plain_value result ≡ plain_in self }
    {
        match self {
            Row::Next => Some(Plain::Join(None)),
            Row::Doubles | Row::Turn | Row::Refused | Row::Waits => Some(Plain::Board),
            _ => None,
        }
    }

    /// Whether it says what the client takes now.
    pub(crate) fn shows_offers(self) -> bool
        ensures { result ≡ shows_offers self }
    {
        matches!(
            self,
            Row::Offers | Row::Undoubled | Row::Accepted | Row::Resigns | Row::Owes
        )
    }

    /// Whether it says what the client takes now, or one way of it if the game goes on.
    pub(crate) fn names_way_on(self) -> bool
        ensures { result ≡ names_way_on self }
    {
        matches!(self, Row::Unsettled | Row::Unanswered) || self.shows_offers()
    }

    /// Whether it says that the user may roll, and of a double only what became of one.
    pub(crate) fn rolls_alone(self) -> bool
        ensures { result ≡ rolls_alone self }
    {
        matches!(self, Row::Undoubled | Row::Accepted)
    }

    /// Whether it is said only if the user asks: by `help`, `board`, or a word that is refused. There is nothing to do
    /// then, or it is not sure.
    pub fn is_asked_for(self) -> bool
        ensures { result ≡ is_asked_for self }
    {
        matches!(
            self,
            Row::Unsettled
                | Row::Unanswered
                | Row::Back
                | Row::Thinks
                | Row::Waits
                | Row::Joined
                | Row::Absent
        )
    }

    /// Its words before what it names.
    pub fn words_before(self) -> &'static [u8]
        ensures { result.now ≡ words_before self }
    {
        match self {
            Row::Nothing | Row::Offers => b"",
            Row::NotLoggedIn =>
                b"Not logged in: wrong name or password? If nothing follows, type quit.\n",
            Row::Undoubled => b"Your turn: roll; the server refused a double in this game.\n",
            Row::Accepted => b"Your turn: roll; your double is accepted.\n",
            Row::ServerPlays =>
                b"You logged in with automove or greedy on: fix logs in again with both off.\n",
            Row::Resigns | Row::Concedes => b" offers to resign: accept, or reject.\n",
            Row::Owes => b" waits for your answer: accept, or reject.\n",
            Row::Unsettled => b" may wait for your answer: accept, or reject.\n",
            Row::Unanswered => b" may still have to answer your offer.\n",
            Row::Doubles => b" doubles: board, then accept, or reject.\n",
            Row::Turn => b"It may be your turn: board shows the game.\n",
            Row::Declined => b" declined? Go on: ",
            Row::Refused => b" was refused: board shows the game.\n",
            Row::Same => b"The board is as it was: ",
            Row::Back => b"If it is your turn: ",
            Row::Thinks => b" has not answered yet.\n",
            Row::Waits => b" was sent: board asks what became of it.\n",
            Row::Next => b"The game is over: join goes on, leave saves the match.\n",
            Row::Joined => b" has not joined yet.\n",
            Row::Saved => b"Your match may be saved:",
            Row::Absent => b" is not here now: your match may be saved.\n",
            Row::Invited => b"You are invited:",
        }
    }

    /// Its words after what it names.
    pub(crate) fn words_after(self) -> &'static [u8]
        ensures { result.now ≡ words_after self }
    {
        match self {
            Row::Declined | Row::Same | Row::Back => b".\n",
            Row::Invited => b"\n",
            Row::Saved => b"if you are invited.\n",
            _ => b"",
        }
    }
}
