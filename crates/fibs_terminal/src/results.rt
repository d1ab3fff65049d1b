//! What the matches of the user have changed: how the server rates him, and the match that has ended last.
ghost use Rattle.std.specs.Prelude.{◌≡◌, ◌≤◌, length, IfSome, IsSome, None, Some};
ghost use Rattle.std.specs.Option.{option_copied};
ghost use Rattle.fibs_fields.specs.StoredBoard.{fields_of};
ghost use Rattle.fibs_wording.specs.Matches.{final_score};
ghost use Rattle.fibs_terminal.specs.Ended.{is_alike, rated_by, score_of, says_nothing_new, unrated_after};

use fibs_advice::situation::{KeptName, kept_name};
use fibs_fields::boards::Board;
use fibs_fields::boards::fields::{MATCH_LENGTH, OTHER_SCORE, OWN_SCORE, UNLIMITED};
use fibs_wording::matches::{Score, final_score};
use std::mem;

/// How the server rates the user.
#[derive(Clone, Copy, Debug, PartialEq, Eq)]
pub struct Rated {
    /// In hundredths.
    pub rating: u32,
    /// The points of the matches that he has played.
    pub experience: u64,
}

impl Rated {
    /// A user with this rating and this experience.
    pub fn of(rating: u32, experience: u64) -> Rated
        ensures rating { result.rating ≡ rating }
        ensures experience { result.experience ≡ experience }
    {
        Rated { rating, experience }
    }
}

/// A match that has ended.
#[derive(Drop)]
pub struct Ended {
    /// With whom.
    pub opponent: KeptName,
    /// Its score, if it is known.
    pub score: Option<Score>,
    /// When it ended, in seconds since 1970; None if there is no clock.
    pub time: Option<u64>,
    /// How the user was rated before, if the server has said it.
    pub before: Option<Rated>,
}

/// What the matches of the user have changed.
#[derive(Drop)]
pub struct Results {
    /// The score on the board that came last of the game that is on the table.
    board: Option<Score>,
    /// How the server has rated the user last.
    rated: Option<Rated>,
    /// The match that has ended last, if no rating was told since.
    ended: Option<Ended>,
}

/// Whether two are alike.
fn is_alike(a: Rated, b: Rated) -> bool
    ensures { result ≡ is_alike a b }
{
    a.rating == b.rating && a.experience == b.experience
}

/// Whether what is said now is the same as what was known before.
fn says_nothing_new(before: Option<Rated>, now: Rated) -> bool
    ensures { result ≡ says_nothing_new before now }
{
    match before {
        None => false,
        Some(before) => is_alike(before, now),
    }
}

/// The score of a match of some length that a board shows.
#[tactic(auto, unfolding(fibs_fields::specs::Board::field_values))]
pub fn score_on(board: &Board) -> Option<Score>
    ensures { result ≡ score_of (fields_of board.now) }
{
    if board.field(MATCH_LENGTH) == UNLIMITED {
        return None;
    }
    Some(Score {
        length: u64::from(board.field(MATCH_LENGTH).unsigned_abs()),
        own: u64::from(board.field(OWN_SCORE).unsigned_abs()),
        other: u64::from(board.field(OTHER_SCORE).unsigned_abs()),
    })
}

impl Results {
    /// The server has said nothing.
    pub fn new() -> Results
        ensures board { result.board ≡ None }
        ensures rated { result.rated ≡ None }
        ensures ended { result.ended ≡ None }
    {
        Results {
            board: None,
            rated: None,
            ended: None,
        }
    }

    /// A game begins, or is resumed: none of its boards has come.
    pub fn begin_game(&mut self)
        ensures { self.new ≡ record self.old { board = None } }
    {
        self.board = None;
    }

    /// A board of the game has come.
    pub fn hear_board(&mut self, score: Option<Score>)
        ensures { self.new ≡ record self.old { board = score } }
    {
        self.board = score;
    }

    /// The match with an opponent has ended, by a text that may say the score. It answers the one that ended before, if
    /// no rating was told since.
    pub fn end_match(
        &mut self,
        opponent: &[u8],
        text: Option<Score>,
        time: Option<u64>,
    ) -> Option<Ended>
        ensures before { result ≡ self.old.ended }
        ensures rated { self.new.rated ≡ self.old.rated }
        ensures board { self.new.board ≡ None }
        ensures kept { IsSome self.new.ended }
        ensures opponent { length opponent.now ≤ 64 →
            IfSome self.new.ended (λ ended. ended.opponent.items ≡ opponent.now) }
        ensures score { IfSome self.new.ended (λ ended. ended.score ≡ final_score self.old.board text) }
        ensures known { IfSome self.new.ended (λ ended. ended.before ≡ self.old.rated) }
        ensures time { IfSome self.new.ended (λ ended. ended.time ≡ time) }
    {
        let score = final_score(self.board, text);
        self.board = None;
        mem::replace(
            &mut self.ended,
            Some(Ended {
                opponent: kept_name(opponent),
                score,
                time,
                before: self.rated,
            }),
        )
    }

    /// The server rates the user so. It answers the match that has changed it, once for each.
    pub fn rate(&mut self, now: Rated) -> Option<Ended>
        ensures rated { self.new.rated ≡ Some now }
        ensures board { self.new.board ≡ self.old.board }
        ensures told { result ≡ rated_by self.old.ended now }
        ensures left { self.new.ended ≡ unrated_after self.old.ended now }
    {
        self.rated = Some(now);
        match mem::replace(&mut self.ended, None) {
            None => None,
            Some(ended) => {
                if says_nothing_new(ended.before, now) {
                    self.ended = Some(ended);
                    return None;
                }
                Some(ended)
            }
        }
    }

    /// The match of which no rating was told: none will be.
    pub fn take_unrated(&mut self) -> Option<Ended>
        ensures taken { result ≡ self.old.ended }
        ensures left { self.new ≡ record self.old { ended = None } }
    {
        mem::replace(&mut self.ended, None)
    }

    /// The same, which may still be rated.
    pub fn unrated(&self) -> Option<&Ended>
        ensures { option_copied result ≡ self.now.ended }
    {
        self.ended.as_ref()
    }
}
