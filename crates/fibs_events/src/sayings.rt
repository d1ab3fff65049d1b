//! What texts and messages say of matches, invitations, answers and ratings.

ghost use Rattle.std.specs.Prelude.{◌≡◌, ◌≢◌, IfSome, IfNone, Some, None};
ghost use Rattle.std.specs.Bool.{OnFalse, OnTrue};
ghost use Rattle.fibs_fields.specs.Bytes.{name_bytes};
ghost use Rattle.fibs_events.specs.Known.{side_in};
ghost use Rattle.fibs_events.specs.Remembered.{HasOffer, IsInviting, IsNews, after_told, at_stage, greeted, invited, not_invited, resigned, with_game};
ghost use Rattle.fibs_events.specs.Reported.{HasNoOffer, IsOf, IsOld, IsOldMatch, IsOldOffer, IsToldBy, after_saying, deed_of};
ghost use Rattle.fibs_events.specs.Listed.{HearsMessage, changed_of, rated_side, side_listed};
ghost use Rattle.fibs_messages.specs.Message.{message_of};
ghost use Rattle.fibs_events.specs.declared.event.Event.TheVariants as E;
ghost use Rattle.fibs_events.specs.declared.told.Deed.TheVariants as D;
ghost use Rattle.fibs_events.specs.Said.{IsOfMatches, IsOfMessage, IsOfText};

use crate::details::{length_in, points_in};
use crate::event::{Event, Length, Offer, Side};
use crate::memory::{Events, Game, Invitation, Rating, Resignation, Stage, kept};
use crate::scores::worth;
use crate::told::{Deed, Report};
use fibs_fields::split::split;
use fibs_messages::{Message, Name};

impl Events {
    /// Takes note of what was said of the match. False if that was said last, too.
    fn note_stage(&mut self, stage: Stage) -> bool
        ensures noted { self.new ≡ at_stage stage self.old }
        ensures told { OnTrue result (self.old.stage ≢ stage) }
        ensures known { OnFalse result (self.old.stage ≡ stage) }
        ensures same { OnFalse result (self.new ≡ self.old) }
    {
        let is_news = self.stage != stage;
        self.stage = stage;
        is_news
    }

    /// That a match begins.
    fn hear_joined<'a>(&mut self, report: &Report<'a>) -> Option<Event<'a>>
        ensures kind { IfSome result (λ event. IsOfMatches event) }
        ensures tells { IfSome result (λ event. IsToldBy D.Joins report.now.name.now self.old event) }
        ensures remembered { self.new ≡ after_told result self.old }
    {
        let name = Name::new(report.name)?;
        let length = length_in(report.rest)?;
        let is_other = self.opponent.as_slice() != name.bytes();
        if !self.note_stage(Stage::Joined) && !is_other {
            return None;
        }
        self.meet(name);
        self.begin_game();
        Some(Event::Joined { name, length })
    }

    /// That a match goes on.
    fn hear_resumed<'a>(&mut self, report: &Report<'a>) -> Option<Event<'a>>
        ensures kind { IfSome result (λ event. IsOfMatches event) }
        ensures tells { IfSome result (λ event. IsToldBy D.Resumes report.now.name.now self.old event) }
        ensures remembered { self.new ≡ after_told result self.old }
        ensures none { IfNone result (IsOldMatch D.Resumes report.now.name.now self.old) }
    {
        let name = Name::new(report.name)?;
        let is_other = self.opponent.as_slice() != name.bytes();
        if !self.note_stage(Stage::Resumed) && !is_other {
            return None;
        }
        self.meet(name);
        Some(Event::Resumed { name })
    }

    /// That a game begins.
    fn hear_begun<'a>(&mut self, report: &Report<'a>) -> Option<Event<'a>>
        ensures kind { IfSome result (λ event. IsOfMatches event) }
        ensures tells { IfSome result (λ event. IsToldBy D.BeginsGame report.now.name.now self.old event) }
        ensures remembered { self.new ≡ after_told result self.old }
        ensures none { IfNone result (IsOldMatch D.BeginsGame report.now.name.now self.old) }
    {
        let name = Name::new(report.name)?;
        let is_other = self.opponent.as_slice() != name.bytes();
        if !self.note_stage(Stage::Begun) && !is_other {
            return None;
        }
        self.meet(name);
        self.begin_game();
        Some(Event::GameBegun { name })
    }

    /// That the user or his opponent has left the match. It is told once, until something else is heard of a match.
    fn hear_left<'a>(&mut self, report: &Report<'a>) -> Option<Event<'a>>
        ensures kind { IfSome result (λ event. IsOfMatches event) }
        ensures tells { IfSome result (λ event. IsToldBy D.Leaves report.now.name.now self.old event) }
        ensures remembered { self.new ≡ after_told result self.old }
        ensures none { IfNone result (IsOldMatch D.Leaves report.now.name.now self.old) }
    {
        let who = self.side_of(report.name)?;
        if self.note_stage(Stage::Left) {
            Some(Event::Left { who })
        } else {
            None
        }
    }

    /// Something that is said of the match, and of nobody.
    fn hear_stage<'a>(&mut self, stage: Stage, event: Event<'a>) -> Option<Event<'a>>
        requires { IsOfMatches event }
        ensures kind { IfSome result (λ event. IsOfMatches event) }
        ensures value { IfSome result (λ told. told ≡ event.entry) }
        ensures told { IfSome result (λ told. (self.old.stage ≢ stage) × (self.new ≡ at_stage stage self.old)) }
        ensures none { IfNone result ((self.old.stage ≡ stage) × (self.new ≡ self.old)) }
    {
        if self.note_stage(stage) {
            Some(event)
        } else {
            None
        }
    }

    /// An invitation. The same one is told once, until it is answered or who invites has gone.
    fn hear_invitation<'a>(
        &mut self,
        name: Name<'a>,
        invitation: Invitation,
        event: Event<'a>,
    ) -> Option<Event<'a>>
        requires { IsOfMatches event }
        ensures kind { IfSome result (λ event. IsOfMatches event) }
        ensures value { IfSome result (λ told. told ≡ event.entry) }
        ensures told { IfSome result (λ told. ¬ IsInviting (name_bytes name.entry) invitation self.old) }
        ensures invited { IfSome result (λ told. self.new ≡ invited (name_bytes name.entry) invitation self.old) }
        ensures none { IfNone result (IsInviting (name_bytes name.entry) invitation self.old × (self.new ≡ self.old)) }
    {
        let is_same_name = self.inviter.as_slice() == name.bytes();
        if is_same_name && self.invitation == invitation {
            return None;
        }
        self.inviter = kept(name);
        self.invitation = invitation;
        Some(event)
    }

    /// An invitation to a new match.
    fn hear_invited<'a>(&mut self, report: &Report<'a>) -> Option<Event<'a>>
        ensures kind { IfSome result (λ event. IsOfMatches event) }
        ensures tells { IfSome result (λ event. IsToldBy D.Invites report.now.name.now self.old event) }
        ensures remembered { self.new ≡ after_told result self.old }
    {
        let name = Name::new(report.name)?;
        let length = length_in(report.rest)?;
        self.hear_invitation(
            name,
            Invitation::New(length),
            Event::Invited { name, length },
        )
    }

    /// An invitation to a match that was saved.
    fn hear_invited_to_resume<'a>(&mut self, report: &Report<'a>) -> Option<Event<'a>>
        ensures kind { IfSome result (λ event. IsOfMatches event) }
        ensures tells { IfSome result (λ event. IsToldBy D.InvitesToResume report.now.name.now self.old event) }
        ensures remembered { self.new ≡ after_told result self.old }
        ensures none { IfNone result (IsOldOffer D.InvitesToResume report.now.name.now self.old) }
    {
        let name = Name::new(report.name)?;
        self.hear_invitation(name, Invitation::Saved, Event::InvitedToResume { name })
    }

    /// That nobody invites the user, or a player does not.
    fn hear_not_invited<'a>(&mut self, name: &[u8]) -> Option<Event<'a>>
        ensures value { result ≡ None }
        ensures remembered { self.new ≡ not_invited name.now self.old }
    {
        if name.is_empty() || self.inviter.as_slice() == name {
            self.invitation = Invitation::Nothing;
        }
        None
    }

    /// An offer to give up the game.
    fn hear_resigning<'a>(&mut self, report: &Report<'a>) -> Option<Event<'a>>
        ensures kind { IfSome result (λ event. IsOfMatches event) }
        ensures tells { IfSome result (λ event. IsToldBy D.Resigns report.now.name.now self.old event) }
        ensures remembered { self.new ≡ after_told result self.old }
    {
        let who = self.side_of(report.name)?;
        let points = points_in(report.rest)?;
        let offer = Some(Resignation { who, points });
        if self.game.resignation == offer {
            return None;
        }
        self.game.resignation = offer;
        Some(Event::OfferedToResign {
            who,
            points,
            worth: worth(points, self.known.as_ref()),
        })
    }

    /// The side that a text names, if the other one has offered to give up. That is answered then.
    fn answer_resignation(&mut self, report: &Report<'_>) -> Option<Side>
        ensures side { IfSome result (λ who. side_in report.now.name.now self.old ≡ Some who) }
        ensures offer { IfSome result (λ who. HasOffer who self.old) }
        ensures answered { IfSome result (λ who. self.new ≡ with_game (resigned None self.old.game) self.old) }
        ensures none { IfNone result (HasNoOffer report.now.name.now self.old) }
        ensures same { IfNone result (self.new ≡ self.old) }
    {
        let who = self.side_of(report.name)?;
        let offer = self.game.resignation?;
        if offer.who == who {
            return None;
        }
        self.game.resignation = None;
        Some(who)
    }

    /// The answer to an offer to give up.
    fn hear_answer<'a>(&mut self, report: &Report<'a>) -> Option<Event<'a>>
        ensures kind { IfSome result (λ event. IsOfMatches event) }
        ensures offer { IfSome result (λ event. IsNews event self.old) }
        ensures of { IfSome result (λ event. IsOf report.now.name.now self.old event) }
        ensures declined { report.now.deed ≡ D.Declines → IfSome result (λ event. deed_of event ≡ D.Declines) }
        ensures taken { report.now.deed ≢ D.Declines → IfSome result (λ event. deed_of event ≡ D.TakesResignation) }
        ensures remembered { self.new ≡ after_told result self.old }
        ensures none { IfNone result (HasNoOffer report.now.name.now self.old) }
    {
        let who = self.answer_resignation(report)?;
        if report.deed == Deed::Declines {
            return Some(Event::Declined { who });
        }
        Some(Event::Accepted {
            who,
            offer: Offer::Resignation,
        })
    }

    /// That a double was rejected.
    fn hear_given_up<'a>(&mut self, report: &Report<'a>) -> Option<Event<'a>>
        ensures kind { IfSome result (λ event. IsOfMatches event) }
        ensures tells { IfSome result (λ event. IsToldBy D.GivesUp report.now.name.now self.old event) }
        ensures remembered { self.new ≡ after_told result self.old }
        ensures none { IfNone result (IsOldOffer D.GivesUp report.now.name.now self.old) }
    {
        let who = self.side_of(report.name)?;
        if self.game.doubled != Some(who.other()) {
            return None;
        }
        self.game.doubled = None;
        Some(Event::Rejected { who })
    }

    /// What a text says of matches.
    fn hear_match<'a>(&mut self, report: &Report<'a>) -> Option<Event<'a>>
        ensures kind { IfSome result (λ event. IsOfMatches event) }
        ensures tells { IfSome result (λ event. IsToldBy report.now.deed report.now.name.now self.old event) }
        ensures remembered { self.new ≡ after_told result self.old }
        ensures none { IfNone result (IsOldMatch report.now.deed report.now.name.now self.old) }
    {
        match report.deed {
            Deed::Joins => self.hear_joined(report),
            Deed::Resumes => self.hear_resumed(report),
            Deed::BeginsGame => self.hear_begun(report),
            Deed::AsksForNext => self.hear_stage(Stage::Next, Event::NextGame),
            Deed::IsNotPlaying => self.hear_stage(Stage::NotPlaying, Event::NotPlaying),
            Deed::Leaves => self.hear_left(report),
            _ => None,
        }
    }

    /// What a text says of offers and invitations.
    fn hear_offer<'a>(&mut self, report: &Report<'a>) -> Option<Event<'a>>
        ensures kind { IfSome result (λ event. IsOfMatches event) }
        ensures tells { IfSome result (λ event. IsToldBy report.now.deed report.now.name.now self.old event) }
        ensures remembered { self.new ≡ after_saying report.now.deed report.now.name.now result self.old }
        ensures none { IfNone result (IsOldOffer report.now.deed report.now.name.now self.old) }
    {
        match report.deed {
            Deed::GivesUp => self.hear_given_up(report),
            Deed::Resigns => self.hear_resigning(report),
            Deed::Declines | Deed::TakesResignation => self.hear_answer(report),
            Deed::Invites => self.hear_invited(report),
            Deed::InvitesToResume => self.hear_invited_to_resume(report),
            Deed::DoesNotInvite => self.hear_not_invited(report.name),
            _ => None,
        }
    }

    /// What a text says that is no roll, no play and no end, and neither a double nor its acceptance.
    pub(crate) fn hear_saying<'a>(
        &mut self,
        report: &Report<'a>,
        text: &'a [u8],
    ) -> Option<Event<'a>>
        ensures kind { IfSome result (λ event. IsOfText text.now event) }
        ensures tells { IfSome result (λ event. IsToldBy report.now.deed report.now.name.now self.old event) }
        ensures remembered { self.new ≡ after_saying report.now.deed report.now.name.now result self.old }
        ensures none { IfNone result (IsOld report.now.deed report.now.name.now self.old) }
    {
        match report.deed {
            Deed::Refuses => Some(Event::Refused { text }),
            Deed::HasNotSaved => Some(Event::NothingSaved {
                name: Name::new(report.name)?,
            }),
            _ => match self.hear_match(report) {
                Some(event) => Some(event),
                None => self.hear_offer(report),
            },
        }
    }

    /// The user has logged in. Another user's session tells of other matches.
    fn hear_welcome<'a>(&mut self, name: Name<'a>) -> Option<Event<'a>>
        ensures kind { IfSome result (λ event. IsOfMessage event) }
        ensures tells { result ≡ Some (E.LoggedIn name.entry) }
        ensures remembered { self.new ≡ greeted (name_bytes name.entry) self.old }
    {
        if self.name.as_slice() != name.bytes() {
            *self = Events::new();
            self.name = kept(name);
        }
        self.stage = Stage::Unknown;
        self.invitation = Invitation::Nothing;
        self.is_motd = false;
        Some(Event::LoggedIn { name })
    }

    /// The rating of a player was listed.
    fn hear_rating<'a>(&mut self, name: Name<'_>, rating: u32, experience: u64) -> Option<Event<'a>>
        ensures kind { IfSome result (λ event. IsOfMessage event) }
        ensures tells { result ≡ changed_of (side_listed (name_bytes name.entry) self.old) rating experience self.old }
        ensures remembered { self.new ≡ rated_side (side_listed (name_bytes name.entry) self.old) rating self.old }
    {
        let (who, before) = if self.name.as_slice() == name.bytes() {
            let before = self.own_rating;
            self.own_rating = Some(rating);
            (Side::Own, before)
        } else if self.opponent.as_slice() == name.bytes() {
            let before = self.other_rating;
            self.other_rating = Some(rating);
            (Side::Other, before)
        } else {
            return None;
        };
        if before? == rating {
            return None;
        }
        Some(Event::RatingChanged {
            who,
            rating,
            experience,
        })
    }

    /// What a message says. Ratings are followed of the user and of his opponent.
    pub(crate) fn hear_message<'a>(&mut self, message: &Message<'a>) -> Option<Event<'a>>
        ensures kind { IfSome result (λ event. IsOfMessage event) }
        ensures heard { HearsMessage (message_of message.now) self.old self.new result }
    {
        match message {
            Message::Welcome { name, .. } => self.hear_welcome(*name),
            Message::OwnInfo(info) => self.hear_rating(info.name, info.rating, info.experience),
            Message::WhoInfo(info) => self.hear_rating(info.name, info.rating, info.experience),
            Message::MotdBegin => {
                self.is_motd = true;
                None
            }
            Message::MotdEnd => {
                self.is_motd = false;
                None
            }
            Message::Logout { name, .. } => self.hear_not_invited(name.bytes()),
            _ => None,
        }
    }
}
