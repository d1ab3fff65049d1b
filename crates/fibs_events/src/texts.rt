//! What texts say has happened.

ghost use Rattle.std.specs.Prelude.{◌≡◌, ◌≢◌, [], IfSome, IfNone, Some, None, List, option_map, true};
ghost use Rattle.fibs_rules.specs.Hop.{Hop};
ghost use Rattle.fibs_rules.specs.PlayValue.{hops_of};
ghost use Rattle.fibs_position.specs.GameOf.{game_of};
ghost use Rattle.fibs_events.specs.Happenings.{LegalFrom, nothing};
ghost use Rattle.fibs_events.specs.Ends.{other_side};
ghost use Rattle.fibs_events.specs.Known.{known_of, side_in};
ghost use Rattle.fibs_events.specs.declared.event.Side.{Side};
ghost use Rattle.fibs_events.specs.declared.happened.Won.{Won};
ghost use Rattle.fibs_events.specs.declared.happened.WonMatch.{WonMatch};
ghost use Rattle.fibs_events.specs.Remembered.{IsRemembered, IsRollTold, played_in, says_nothing, with_board, with_game};
ghost use Rattle.fibs_events.specs.Said.{IsOfText};
ghost use Rattle.fibs_events.specs.Texts.{SaysPlayOf, way_of};
ghost use Rattle.fibs_events.specs.declared.told.Deed.TheVariants as D;

use crate::details::{dice_in, first_number, opening_in, play_in, score_in};
use crate::event::Side;
use crate::happened::{Happened, Rolled, Turned, Won, WonMatch};
use crate::memory::{Events, Game};
use crate::scores::worth;
use crate::told::{Deed, Report, read_report};
use crate::turning::{after_decision, is_legal_by};
use fibs_fields::boards::fields::{CUBE, WAS_DOUBLED};
use fibs_position::{Decision, Direction, GameBoard, Play};

/// What stands in place of dice for a decision that takes none.
const NO_DICE: [u8; 2] = [0, 0];

/// How a log marks a line that was sent.
const SENT: &[u8] = b">> ";

/// Which way a side goes by the numbers of a board line.
fn direction_of(who: Side, game: &GameBoard) -> Direction
    ensures { result ≡ way_of who (game_of game.now) }
{
    match (who, game.direction()) {
        (Side::Own, direction) => direction,
        (Side::Other, Direction::Down) => Direction::Up,
        (Side::Other, Direction::Up) => Direction::Down,
    }
}

/// A board after its double was accepted, as far as it is known: the cube shows twice as much.
fn with_cube_doubled(game: &GameBoard) -> Option<GameBoard> {
    let board = game.board();
    let doubled = board.with(CUBE, board.field(CUBE).saturating_mul(2))?;
    let answered = doubled.with(WAS_DOUBLED, 0)?;
    GameBoard::of(&answered).ok()
}

impl Events {
    /// The board that is known after a decision of a side, if it can be carried out there.
    fn carry_out(&mut self, who: Side, decision: &Decision, dice: [u8; 2])
        ensures { self.new ≡ with_board self.new.known self.old }
    {
        let Some(game) = self.known else {
            return;
        };
        if let Some(after) = after_decision(who, &game, decision, dice) {
            self.known = Some(after);
        }
    }

    /// A side has rolled.
    fn hear_roll<'a>(&mut self, who: Side, dice: [u8; 2]) -> Happened<'a>
        ensures played { result.played ≡ None }
        ensures said { result.said ≡ None }
        ensures heard { IsRemembered self.old self.new result }
        ensures rolls { IfSome result.rolled (λ rolled. rolled ≡ record { who = who; dice = dice }) }
        ensures unrolled { IfNone result.rolled (IsRollTold self.old.game.roll (record { who = who; dice = dice })) }
    {
        let mut happened = Happened::nothing();
        happened.rolled = self.game.note_roll(Rolled { who, dice });
        self.carry_out(who, &Decision::Roll, dice);
        happened
    }

    /// A roll that a text says.
    fn hear_told_roll<'a>(&mut self, report: &Report<'a>) -> Option<Happened<'a>>
        ensures played { IfSome result (λ happened. happened.played ≡ None) }
        ensures said { IfSome result (λ happened. happened.said ≡ None) }
        ensures heard { IfSome result (λ happened. IsRemembered self.old self.new happened) }
        ensures none { IfNone result (self.new ≡ self.old) }
    {
        let dice = dice_in(report.rest)?;
        let who = self.side_of(report.name)?;
        Some(self.hear_roll(who, dice))
    }

    /// The first roll of a game. He who has the larger die plays both.
    fn hear_opening<'a>(&mut self, report: &Report<'a>) -> Option<Happened<'a>>
        ensures played { IfSome result (λ happened. happened.played ≡ None) }
        ensures said { IfSome result (λ happened. happened.said ≡ None) }
        ensures heard { IfSome result (λ happened. IsRemembered self.old self.new happened) }
        ensures none { IfNone result (self.new ≡ self.old) }
    {
        let ([own, other], name) = opening_in(report.rest)?;
        if self.side_of(name)? == Side::Own {
            return None;
        }
        if other < own {
            Some(self.hear_roll(Side::Own, [own, other]))
        } else if own < other {
            Some(self.hear_roll(Side::Other, [other, own]))
        } else {
            None
        }
    }

    /// The legal play of a side on the board that is known.
    fn legal_play(&self, who: Side, play: Play) -> Option<Turned>
        ensures { IfSome result (λ turned. LegalFrom (known_of self.now) turned.who (hops_of turned.play)) }
    {
        let Some(game) = self.known else {
            return None;
        };
        if is_legal_by(who, &game, &play) {
            Some(Turned { who, play })
        } else {
            None
        }
    }

    /// A play that a text says, if the rules allow it on the board that is known.
    fn hear_play(&mut self, who: Side, play: Play) -> Option<Turned>
        ensures legal { IfSome result (λ turned. LegalFrom (known_of self.old) turned.who (hops_of turned.play)) }
        ensures heard { IfSome result (λ turned.
            self.new ≡ with_board self.new.known (with_game (played_in self.old.game) self.old)) }
        ensures none { IfNone result (self.new ≡ self.old) }
    {
        let turned = self.legal_play(who, play)?;
        self.carry_out(who, &Decision::Move(play), NO_DICE);
        self.game.roll = None;
        self.game.resignation = None;
        Some(turned)
    }

    /// The play that a text says, of a side.
    fn told_play(&self, report: &Report<'_>) -> Option<(Side, Play)>
        ensures side { IfSome result (λ told. side_in report.now.name.now self.now ≡ Some told.0) }
        ensures stays { report.now.deed ≡ D.CannotMove → IfSome result (λ told. hops_of told.1 ≡ []) }
        ensures moves { report.now.deed ≢ D.CannotMove → IfSome result (λ told.
            SaysPlayOf (known_of self.now) told.0 report.now.rest.now (hops_of told.1)) }
        ensures none { IfNone result ((who : Side) → side_in report.now.name.now self.now ≡ Some who
            → (report.now.deed ≢ D.CannotMove)
            × ((steps : List Hop) → ¬ SaysPlayOf (known_of self.now) who report.now.rest.now steps)) }
    {
        let who = self.side_of(report.name)?;
        if report.deed == Deed::CannotMove {
            return Some((who, Play::new()));
        }
        let game = self.known?;
        Some((who, play_in(report.rest, direction_of(who, &game))?))
    }

    /// A play that a text says, of none or some steps.
    fn hear_told_play<'a>(&mut self, report: &Report<'a>) -> Happened<'a>
        ensures said { result.said ≡ None }
        ensures played { IfSome result.played (λ turned.
            LegalFrom (known_of self.old) turned.who (hops_of turned.play)) }
        ensures heard { IsRemembered self.old self.new result }
    {
        let mut happened = Happened::nothing();
        let Some((who, play)) = self.told_play(report) else {
            return happened;
        };
        happened.played = self.hear_play(who, play);
        happened
    }

    /// A double that a text says.
    fn hear_double<'a>(&mut self, report: &Report<'a>) -> Option<Happened<'a>>
        ensures played { IfSome result (λ happened. happened.played ≡ None) }
        ensures said { IfSome result (λ happened. happened.said ≡ None) }
        ensures heard { IfSome result (λ happened. IsRemembered self.old self.new happened) }
        ensures none { IfNone result (self.new ≡ self.old) }
        ensures doubles { IfSome result (λ happened.
            IfSome happened.doubled (λ who. side_in report.now.name.now self.old ≡ Some who)) }
        ensures undoubled { IfSome result (λ happened.
            IfNone happened.doubled (side_in report.now.name.now self.old ≡ self.old.game.doubled)) }
        ensures nobody { IfNone result (side_in report.now.name.now self.old ≡ None) }
    {
        let who = self.side_of(report.name)?;
        let mut happened = Happened::nothing();
        happened.doubled = self.game.note_double(who);
        Some(happened)
    }

    /// That a double was accepted.
    fn hear_taken<'a>(&mut self, report: &Report<'a>) -> Option<Happened<'a>>
        ensures played { IfSome result (λ happened. happened.played ≡ None) }
        ensures said { IfSome result (λ happened. happened.said ≡ None) }
        ensures heard { IfSome result (λ happened. IsRemembered self.old self.new happened) }
        ensures none { IfNone result (self.new ≡ self.old) }
        ensures takes { IfSome result (λ happened. happened.accepted ≡ side_in report.now.name.now self.old) }
        ensures untaken { IfNone result ((who : Side) → side_in report.now.name.now self.old ≡ Some who
            → self.old.game.doubled ≢ Some (other_side who)) }
    {
        let who = self.side_of(report.name)?;
        if self.game.doubled != Some(who.other()) {
            return None;
        }
        self.game.doubled = None;
        self.known = self.known.as_ref().and_then(with_cube_doubled);
        let mut happened = Happened::nothing();
        happened.accepted = Some(who);
        Some(happened)
    }

    /// That a side has won the game.
    fn hear_won<'a>(&mut self, report: &Report<'a>) -> Option<Happened<'a>>
        ensures played { IfSome result (λ happened. happened.played ≡ None) }
        ensures said { IfSome result (λ happened. happened.said ≡ None) }
        ensures heard { IfSome result (λ happened. IsRemembered self.old self.new happened) }
        ensures none { IfNone result (self.new ≡ self.old) }
        ensures wins { IfSome result (λ happened.
            option_map (λ (won : Won). won.winner) happened.won ≡ side_in report.now.name.now self.old) }
    {
        let winner = self.side_of(report.name)?;
        let points = first_number(report.rest)?;
        if self.game.is_over {
            return None;
        }
        self.game = Game::ended();
        let mut happened = Happened::nothing();
        happened.won = Some(Won {
            winner,
            points,
            worth: worth(points, self.known.as_ref()),
        });
        Some(happened)
    }

    /// That a side has won the match.
    fn hear_won_match<'a>(&mut self, report: &Report<'a>) -> Option<Happened<'a>>
        ensures played { IfSome result (λ happened. happened.played ≡ None) }
        ensures said { IfSome result (λ happened. happened.said ≡ None) }
        ensures heard { IfSome result (λ happened. IsRemembered self.old self.new happened) }
        ensures none { IfNone result (self.new ≡ self.old) }
        ensures wins { IfSome result (λ happened.
            option_map (λ (won : WonMatch). won.winner) happened.won_match ≡ side_in report.now.name.now self.old) }
    {
        let winner = self.side_of(report.name)?;
        let length = first_number(report.rest)?;
        let [won, lost] = score_in(report.rest)?;
        if self.is_won {
            return None;
        }
        self.is_won = true;
        let score = match winner {
            Side::Own => [won, lost],
            Side::Other => [lost, won],
        };
        let mut happened = Happened::nothing();
        happened.won_match = Some(WonMatch {
            winner,
            length,
            score,
        });
        Some(happened)
    }

    /// What a text says that has happened of dice, plays, the cube or an end.
    fn hear_turn<'a>(&mut self, report: &Report<'a>) -> Option<Happened<'a>>
        ensures played { IfSome result (λ happened. happened.played ≡ None) }
        ensures said { IfSome result (λ happened. happened.said ≡ None) }
        ensures heard { IfSome result (λ happened. IsRemembered self.old self.new happened) }
        ensures none { IfNone result (self.new ≡ self.old) }
    {
        match report.deed {
            Deed::Rolls => self.hear_told_roll(report),
            Deed::Opens => self.hear_opening(report),
            Deed::Doubles => self.hear_double(report),
            Deed::TakesDouble => self.hear_taken(report),
            Deed::WinsGame => self.hear_won(report),
            Deed::WinsMatch => self.hear_won_match(report),
            _ => None,
        }
    }

    /// What a text says that is known.
    fn hear_report<'a>(&mut self, report: &Report<'a>, text: &'a [u8]) -> Happened<'a>
        ensures said { IfSome result.said (λ event. IsOfText text.now event) }
        ensures played { IfSome result.played (λ turned.
            LegalFrom (known_of self.old) turned.who (hops_of turned.play)) }
        ensures heard { IsRemembered self.old self.new result }
    {
        if matches!(report.deed, Deed::Moves | Deed::CannotMove) {
            return self.hear_told_play(report);
        }
        match self.hear_turn(report) {
            Some(happened) => happened,
            None => Happened::of_said(self.hear_saying(report, text)),
        }
    }

    /// What a text says. A play is legal on the board that is known, for the side that has rolled there. A text that is
    /// not known says nothing, nor does the message of the day, nor a line of a log that was sent.
    pub(crate) fn hear_text<'a>(&mut self, text: &'a [u8]) -> Happened<'a>
        ensures said { IfSome result.said (λ event. IsOfText text.now event) }
        ensures played { IfSome result.played (λ turned.
            LegalFrom (known_of self.old) turned.who (hops_of turned.play)) }
        ensures heard { IsRemembered self.old self.new result }
        ensures quiet { says_nothing self.old text.now ≡ true → (self.new ≡ self.old) × (result ≡ nothing) }
    {
        if self.is_motd || text.starts_with(SENT) {
            return Happened::nothing();
        }
        match read_report(text) {
            Some(report) => self.hear_report(&report, text),
            None => Happened::nothing(),
        }
    }
}
