//! What the user waits for.
ghost use Rattle.std.specs.Prelude.{◌≡◌, ◌⊎◌, true, false, IfSome};
ghost use Rattle.fibs_advice.specs.Situations.{after_another};
ghost use Rattle.fibs_advice.specs.Standings.{after_answer, after_confirmed, after_not_invited, after_sent, has_offer, hides_offers, is_called, is_in_game, is_in_match, is_open_again, is_owed, is_told_by_text, is_undoubled, is_unsure, keeps_offer, keeps_while_he_plays, leads_in_match, leads_to, owes_answer, repeats, shows, tells};

use fibs_events::told::Told;

/// What the user waits for, by what the server has said. What the client knows is no part of it.
#[derive(Clone, Copy, Debug, PartialEq, Eq)]
pub enum Standing {
    /// No match.
    Free,
    /// Somebody invites the user.
    Invited,
    /// The board says all.
    Playing,
    /// A decision was sent, and no text has answered it.
    Asked,
    /// The user's own offer is before the opponent.
    Offered,
    /// The opponent has declined, or the server has refused, and nothing has changed.
    Refused,
    /// The board came again on which the decision that waits was made, and the server waits for the user.
    Same,
    /// The double was accepted, and a board is due.
    Taken,
    /// The server has said that it is the user's turn, and no board has come since.
    Due,
    /// The opponent doubles, and the board does not say so.
    Doubled,
    /// The opponent offers to resign.
    Resigned,
    /// The opponent offers to resign, and the board gives the user a turn that he did not have: so it may show the
    /// offer.
    Conceded,
    /// The opponent has made an offer that no board shows: a double, or one that no text has named.
    Owed,
    /// An offer of the opponent was open when the match was left, or the connection before this one ended, and nothing
    /// was heard of it since.
    Unsettled,
    /// The same of an offer of the user.
    Unanswered,
    /// The user has answered an offer of which texts alone told, and no board has come since.
    Answered,
    /// An offer to resign was declined by the user, or is over since the opponent has played on, and no board has come
    /// since.
    Continued,
    /// The game is over.
    Ended,
    /// The next game waits for `join`.
    Next,
    /// The next game waits for the opponent.
    Joined,
    /// The match is no longer on the table.
    Gone,
    /// A connection was made after one on which there was an opponent, and nothing is known of the match.
    Reopened,
    /// A match was resumed, and no board has come since.
    Anew,
    /// A game has begun, and no board of it has come.
    Fresh,
    /// A match was resumed or a game has begun, and its board is the one on which the decision that waits was made.
    Back,
}

/// What a board says to the user.
#[derive(Clone, Copy, Debug, PartialEq, Eq)]
pub enum Shown {
    /// The game is over, and the match goes on.
    GameOver,
    /// The match is over.
    MatchOver,
    /// A double that is to be answered.
    Double,
    /// The same, while a decision waits.
    DoubleStands,
    /// It is the board on which an offer was made that waits.
    OfferStands,
    /// It is the board on which another decision was made that waits.
    Stands,
    /// Nothing waits.
    Plain,
}

impl Standing {
    /// Whether a decision that waits may be made once more: the server has shown the board again that it was made on.
    pub(crate) fn repeats(self) -> bool
        ensures { result ≡ repeats self }
    {
        matches!(self, Standing::Same | Standing::Back)
    }

    /// Whether an offer waits for the user of which texts alone tell.
    pub(crate) fn owes_answer(self) -> bool
        ensures { result ≡ owes_answer self }
    {
        matches!(
            self,
            Standing::Resigned | Standing::Conceded | Standing::Owed | Standing::Unsettled
        )
    }

    /// Whether another decision may be made in place of the one that waits: that is an offer, and was refused or
    /// declined; or the server has shown the board again on which it was made.
    pub(crate) fn is_open_again(self, is_offer: bool) -> bool
        ensures { result ≡ is_open_again self is_offer }
    {
        match self {
            Standing::Same | Standing::Back => true,
            Standing::Refused => is_offer,
            _ => false,
        }
    }

    /// Whether it is not known if an offer is open that was open before.
    pub(crate) fn is_unsure(self) -> bool
        ensures { result ≡ is_unsure self }
    {
        matches!(self, Standing::Unsettled | Standing::Unanswered)
    }

    /// Whether an offer of the opponent is told by texts, and no board shows it.
    pub fn is_told_by_text(self) -> bool
        ensures { result ≡ is_told_by_text self }
    {
        self == Standing::Doubled || self.owes_answer()
    }

    /// Whether what the client takes is not what the user waits for: there is no game, or its board is still to come,
    /// or an offer is before the opponent or was just answered, or may be open, or gives the turn away.
    pub(crate) fn hides_offers(self) -> bool
        ensures { result ≡ hides_offers self }
    {
        matches!(
            self,
            Standing::Free
                | Standing::Invited
                | Standing::Offered
                | Standing::Conceded
                | Standing::Unsettled
                | Standing::Unanswered
                | Standing::Answered
                | Standing::Continued
                | Standing::Ended
                | Standing::Next
                | Standing::Joined
                | Standing::Gone
                | Standing::Reopened
                | Standing::Anew
                | Standing::Fresh
        )
    }

    /// Whether a match is on the table.
    pub(crate) fn is_in_match(self) -> bool
        ensures { result ≡ is_in_match self }
    {
        !matches!(
            self,
            Standing::Free | Standing::Invited | Standing::Gone | Standing::Reopened
        )
    }

    /// Whether a game is on the table.
    fn is_in_game(self) -> bool
        ensures { result ≡ is_in_game self }
    {
        self.is_in_match() && !matches!(self, Standing::Ended | Standing::Next | Standing::Joined)
    }

    /// The state after a text.
    pub fn after(self, told: Told) -> Standing
        ensures told { (result ≡ self) ⊎ (tells told result ≡ true) }
        ensures always { IfSome (leads_to told) (λ standing. result ≡ standing) }
        ensures offered { is_in_game self ≡ true → told ≡ Told.Offered → result ≡ Standing.Offered }
        ensures taken { is_in_game self ≡ true → told ≡ Told.Taken → result ≡ Standing.Taken }
        ensures ended { is_in_game self ≡ true → told ≡ Told.GameOver → result ≡ Standing.Ended }
        ensures over { is_in_match self ≡ true → IfSome (leads_in_match told) (λ standing. result ≡ standing) }
    {
        match told {
            Told::Begins => Standing::Fresh,
            Told::Resumes => Standing::Anew,
            Told::Doubles => Standing::Doubled,
            Told::Resigns => Standing::Resigned,
            Told::Joined => Standing::Joined,
            Told::NextGame => self.after_next_game(),
            Told::ToRoll | Told::ToMove => self.after_your_turn(),
            Told::Invited => self.after_invitation(),
            Told::NoMatch => self.after_no_match(),
            Told::NotInvited => self.after_not_invited(),
            Told::NotPlaying => self.after_not_playing(),
            Told::Saved if self.is_in_match() => Standing::Gone,
            Told::MatchOver if self.is_in_match() => Standing::Free,
            Told::GameOver if self.is_in_game() => Standing::Ended,
            _ if self.is_in_game() => self.after_game_text(told),
            _ => self,
        }
    }

    /// The state after the next game was said to wait for `join`.
    fn after_next_game(self) -> Standing
        ensures { (result ≡ self) ⊎ (result ≡ Standing.Next) }
    {
        match self {
            Standing::Joined => self,
            _ => Standing::Next,
        }
    }

    /// The state after the server has said that it is the user's turn: what is known better stays.
    fn after_your_turn(self) -> Standing
        ensures { (result ≡ self) ⊎ ((result ≡ Standing.Same) ⊎ (result ≡ Standing.Due)) }
    {
        match self {
            Standing::Back => Standing::Same,
            Standing::Offered
            | Standing::Refused
            | Standing::Same
            | Standing::Doubled
            | Standing::Resigned
            | Standing::Conceded
            | Standing::Owed
            | Standing::Fresh => self,
            _ => Standing::Due,
        }
    }

    /// The state after an invitation: in a match it changes nothing.
    fn after_invitation(self) -> Standing
        ensures { (result ≡ self) ⊎ (result ≡ Standing.Invited) }
    {
        match self {
            Standing::Free | Standing::Gone | Standing::Reopened | Standing::Ended =>
                Standing::Invited,
            _ => self,
        }
    }

    /// The state after an invitation has come to nothing: a match that was saved before it still is.
    pub fn after_not_invited(self) -> Standing
        ensures { result ≡ after_not_invited self }
    {
        match self {
            Standing::Invited => Standing::Gone,
            _ => self,
        }
    }

    /// The state after the server has said that there is no such match: an invitation still is.
    fn after_no_match(self) -> Standing
        ensures { (result ≡ self) ⊎ (result ≡ Standing.Free) }
    {
        match self {
            Standing::Gone | Standing::Reopened => Standing::Free,
            _ => self,
        }
    }

    /// The state after the server has said that the user plays with nobody.
    fn after_not_playing(self) -> Standing
        ensures { (result ≡ self) ⊎ (result ≡ Standing.Gone) }
    {
        if self.is_in_game() || self == Standing::Reopened {
            Standing::Gone
        } else {
            self
        }
    }

    /// The state after a text of a game, in a game.
    fn after_game_text(self, told: Told) -> Standing
        ensures told { (result ≡ self) ⊎ (tells told result ≡ true) }
        ensures offered { told ≡ Told.Offered → result ≡ Standing.Offered }
        ensures taken { told ≡ Told.Taken → result ≡ Standing.Taken }
    {
        match told {
            Told::Declined if self != Standing::Playing && !self.keeps_offer() => Standing::Refused,
            Told::NoOffer if self.has_offer() || self == Standing::Continued => Standing::Continued,
            Told::Refused if self == Standing::Answered => Standing::Owed,
            Told::Refused | Told::NoDouble | Told::NoOffer if !self.keeps_offer() => {
                Standing::Refused
            }
            Told::Offered => Standing::Offered,
            Told::MustAnswer if !self.keeps_offer() => Standing::Owed,
            Told::Taken => Standing::Taken,
            Told::Continues if self != Standing::Offered => Standing::Continued,
            Told::Plays if self.is_unsure() => Standing::Continued,
            Told::Plays if !self.keeps_while_he_plays() => Standing::Asked,
            _ => self,
        }
    }

    /// Whether an offer of the opponent is told by texts, or was just answered.
    pub fn has_offer(self) -> bool
        ensures { result ≡ has_offer self }
    {
        matches!(self, Standing::Answered | Standing::Doubled) || self.owes_answer()
    }

    /// Whether a refusal changes nothing: an offer of the opponent, or his answer, is known.
    fn keeps_offer(self) -> bool
        ensures { result ≡ keeps_offer self }
    {
        matches!(
            self,
            Standing::Taken
                | Standing::Doubled
                | Standing::Resigned
                | Standing::Conceded
                | Standing::Owed
        )
    }

    /// Whether a roll or a move of the opponent changes nothing.
    fn keeps_while_he_plays(self) -> bool
        ensures { result ≡ keeps_while_he_plays self }
    {
        matches!(
            self,
            Standing::Owed
                | Standing::Resigned
                | Standing::Conceded
                | Standing::Playing
                | Standing::Answered
                | Standing::Continued
                | Standing::Anew
                | Standing::Fresh
        )
    }

    /// The state after a board; `asked` if the user has asked for it.
    pub fn after_board(self, shown: Shown, asked: bool) -> Standing
        ensures shown { (result ≡ self) ⊎ (shows shown result ≡ true) }
        ensures over { shown ≡ Shown.MatchOver → result ≡ Standing.Ended }
        ensures double { shown ≡ Shown.Double → result ≡ Standing.Playing }
        ensures owed { is_owed self ≡ true → is_undoubled shown ≡ true → result ≡ self }
    {
        match shown {
            Shown::GameOver => self.after_game_over(asked),
            Shown::MatchOver => Standing::Ended,
            Shown::Double => Standing::Playing,
            Shown::DoubleStands => self.after_double_stands(asked),
            _ if self == Standing::Doubled => self.after_undoubled(asked),
            _ if self.owes_answer() && self != Standing::Unsettled => self,
            Shown::OfferStands => self.after_offer_stands(asked),
            Shown::Stands => self.after_stands(asked),
            Shown::Plain if self == Standing::Offered => self,
            // it was on its way when the answer was sent, and a text says what that did
            Shown::Plain if self == Standing::Answered && !asked => self,
            Shown::Plain => Standing::Playing,
        }
    }

    /// The state after a board of a game that is over. The server asks for `join` by a text, unless the match is over;
    /// a board that was asked for, or the first of a connection, is not followed by it.
    fn after_game_over(self, asked: bool) -> Standing
        ensures { (result ≡ self) ⊎ ((result ≡ Standing.Ended) ⊎ (result ≡ Standing.Next)) }
    {
        match self {
            Standing::Joined | Standing::Next => self,
            Standing::Ended if !asked => self,
            _ if self.is_in_game() => Standing::Ended,
            _ => Standing::Next,
        }
    }

    /// The state after a board with a double that is to be answered, while a decision waits: the answer was refused or
    /// lost. If the board confirms the decision instead, that is said next.
    fn after_double_stands(self, asked: bool) -> Standing
        ensures { (result ≡ self) ⊎ (result ≡ Standing.Same) }
    {
        if self == Standing::Asked && !asked {
            self
        } else {
            Standing::Same
        }
    }

    /// The state after a board that does not show a double: if it was asked for, no other one will.
    fn after_undoubled(self, asked: bool) -> Standing
        ensures { (result ≡ self) ⊎ (result ≡ Standing.Owed) }
    {
        if asked { Standing::Owed } else { self }
    }

    /// The state after the board on which an offer was made: it says nothing of the offer. If it was asked for after an
    /// offer was answered or declined, the game is as it was.
    fn after_offer_stands(self, asked: bool) -> Standing
        ensures { (result ≡ self) ⊎ (shows Shown.OfferStands result ≡ true) }
    {
        match self {
            Standing::Due => Standing::Same,
            Standing::Asked if asked => Standing::Offered,
            Standing::Answered | Standing::Continued | Standing::Taken if asked => Standing::Same,
            _ => self.after_old_board(),
        }
    }

    /// The state after the board on which a decision was made that is no offer.
    fn after_stands(self, asked: bool) -> Standing
        ensures { (result ≡ self) ⊎ (shows Shown.Stands result ≡ true) }
    {
        match self {
            Standing::Refused | Standing::Due => Standing::Same,
            Standing::Asked | Standing::Answered | Standing::Continued | Standing::Taken if asked =>
                Standing::Same,
            _ => self.after_old_board(),
        }
    }

    /// The state after a board that says nothing of the decision that waits.
    fn after_old_board(self) -> Standing
        ensures { (result ≡ self) ⊎ (result ≡ Standing.Back) }
    {
        match self {
            Standing::Anew | Standing::Fresh => Standing::Back,
            _ if self.is_in_game() => self,
            _ => Standing::Back,
        }
    }

    /// The state after the board that came last was found to confirm the decision that waited. It says nothing of an
    /// offer of which texts tell, nor of the answer that was just sent to one.
    pub fn after_confirmed(self) -> Standing
        ensures { result ≡ after_confirmed self }
    {
        if self.is_in_game() && !self.has_offer() {
            Standing::Playing
        } else {
            self
        }
    }

    /// The state after an answer to an offer was sent past the client.
    pub(crate) fn after_answer(self) -> Standing
        ensures { result ≡ after_answer self }
    {
        if self.owes_answer() {
            Standing::Answered
        } else {
            self.after_sent()
        }
    }

    /// The state after a decision was sent, by the client or past it.
    pub(crate) fn after_sent(self) -> Standing
        ensures { result ≡ after_sent self }
    {
        if self.is_in_game() {
            Standing::Asked
        } else {
            self
        }
    }

    /// The state before the first board of another opponent.
    pub(crate) fn after_another(self) -> Standing
        ensures { result ≡ after_another self }
    {
        if self.is_in_match() {
            Standing::Fresh
        } else {
            Standing::Free
        }
    }

    /// The state after the user took leave of the server: nothing more is said before the connection ends.
    pub(crate) fn after_bye(self) -> Standing
        ensures { is_called result ≡ false }
    {
        if self.is_in_match() || self == Standing::Gone {
            Standing::Ended
        } else {
            self
        }
    }
}
