//! A turn step by step: which steps may follow those that were made, and which listed play they make.

ghost use Rattle.std.specs.Prelude.{◌≡◌, ◌+◌, ◌<◌, ◌≤◌, ◌↔◌, ◌++◌, ◌∷◌, ◌⊎◌, [], true, IsTrue, IfOk, IfErr, IfSome, IfNone, All, Contains, Some, length, option_map};
ghost use Rattle.fibs_fields.specs.StoredBoard.{fields_of};
ghost use Rattle.fibs_position.specs.Allowed.{IsAllowed, refusal_of};
ghost use Rattle.fibs_position.specs.DecisionValue.{move};
ghost use Rattle.fibs_position.specs.GameOf.{game_of};
ghost use Rattle.fibs_position.specs.OwnView.{first_die, second_die};
ghost use Rattle.fibs_position.specs.PositionValue.{position_of};
ghost use Rattle.fibs_rules.specs.Hop.{Hop, hop_of};
ghost use Rattle.fibs_rules.specs.PlayValue.{hops_of};
ghost use Rattle.fibs_c.specs.Records.Decisions.{decision_in, hop_in};
ghost use Rattle.fibs_c.specs.Records.Statuses.{allowed_status};
ghost use Rattle.fibs_c.specs.PositionDoor.{IsNoPosition};
ghost use Rattle.fibs_c.specs.EffectDoor.{IsGoodIn};
ghost use Rattle.fibs_c.specs.TurnDoor.{AreNextTold, GoesOnBy, IsCarriedOut, IsLeadingTold, IsListedTold, IsNextBy, IsPlayTold, IsTurnTold, LeadsTo, next_in, step_by, step_tried, steps_of};

use crate::records::decisions::{DecisionRecord, PlayStep, decision_of, play_record, step_record};
use crate::records::status::{
    DONE, MEMORY, NO_DECISION, NO_EFFECT, disallowed_status, field_fault_status,
    position_fault_status,
};
use fibs_fields::boards::Board;
use fibs_fields::boards::fields::{FIRST_DIE, SECOND_DIE};
use fibs_position::laws::{allowed_is_carried_out, good_is_exact};
use fibs_position::{Decision, GameBoard, Play, Step, differs, effect};
use std::alloc::Global;

/// From how many places a checker may go.
const PLACES: u8 = 25;

/// How many steps are tried: from each place by either die.
const TRIED: u8 = 50;

/// A move throws no dice: it takes any.
const ANY_DICE: [u8; 2] = [1, 1];

/// The steps that may follow.
#[repr(C)]
#[derive(Clone, Copy)]
pub struct NextRecord {
    /// How many there are.
    pub count: usize,
    /// From the highest place down; those after the count are zeros.
    pub steps: [PlayStep; 50],
}

/// The game of a line's board, or why it has no position.
fn game_in(line: &[u8]) -> Result<GameBoard, u32>
    ensures game { IfOk result (λ game. IsGoodIn line.now (game_of game)) }
    ensures fault { IfErr result (λ status. IsNoPosition line.now status) }
{
    match Board::read(line) {
        Err(wrong) => Err(field_fault_status(wrong.fault)),
        Ok(board) => match GameBoard::of(&board) {
            Err(fault) => Err(position_fault_status(fault)),
            Ok(game) => Ok(game),
        },
    }
}

/// The play of a decision to move. None if it is no such decision.
fn play_made(made: &DecisionRecord) -> Option<Play>
    ensures { option_map hops_of result ≡ steps_of (decision_in made.now) }
{
    match decision_of(made) {
        Some(Decision::Move(play)) => Some(play),
        Some(
            Decision::Roll
            | Decision::Double
            | Decision::Accept
            | Decision::Reject
            | Decision::Resign(_),
        ) => None,
        None => None,
    }
}

/// The step from a place by a die. None if the die is not shown.
fn step_by(source: u8, die: u8) -> Option<Step>
    requires low { 0 < source }
    requires high { source ≤ 25 }
    ensures { option_map hop_of result ≡ step_by source die }
{
    if die == 0 {
        return None;
    }
    Step::new(source, source.saturating_sub(die))
}

/// The steps that are tried, by number: from each place by the first die, then by the second if it is another.
fn step_tried(game: &GameBoard, number: u8) -> Option<Step>
    requires { number < 50 }
    ensures { let b = game_of game.now in
        option_map hop_of result ≡ step_tried (first_die b) (second_die b) number }
{
    let first = game.board().die(FIRST_DIE);
    let second = game.board().die(SECOND_DIE);
    if number < PLACES {
        step_by(number + 1, first)
    } else if first == second {
        None
    } else {
        step_by(number - 24, second)
    }
}

/// The play with one more step.
fn longer(made: &Play, step: Step) -> Play
    requires { length (hops_of made.now) < 4 }
    ensures { hops_of result ≡ hops_of made.now ++ hop_of step ∷ [] }
{
    let mut play = *made;
    let _pushed = play.push(step);
    play
}

/// True if the server would carry the play out.
fn is_carried_out(game: &GameBoard, play: &Play) -> bool
    ensures { IsTrue result ↔ IsCarriedOut (game_of game.now) (hops_of play.now) }
{
    match effect(game.board(), &Decision::Move(*play), ANY_DICE) {
        None => false,
        Some(_led) => true,
    }
}

/// True if the player may make the move.
fn is_allowed(game: &GameBoard, play: &Play) -> bool
    ensures { IsTrue result ↔ IsAllowed (game_of game.now) (move (hops_of play.now)) }
{
    match game.position().allows(&Decision::Move(*play)) {
        Ok(()) => true,
        Err(_) => false,
    }
}

/// True if the player may make a move that begins with the play and has so many steps more.
fn goes_on(game: &GameBoard, play: &Play, left: u8) -> bool
    requires { length (hops_of play.now) + left ≤ 4 }
    ensures { IsTrue result ↔ GoesOnBy left (game_of game.now) (hops_of play.now) }
{
    allowed_is_carried_out();
    good_is_exact();
    if left == 0 {
        return is_allowed(game, play);
    }
    for number in 0..TRIED {
        if let Some(step) = step_tried(game, number) {
            let more = longer(play, step);
            if is_carried_out(game, &more) && goes_on(game, &more, left - 1) {
                return true;
            }
        }
    }
    false
}

/// True if the step was the last that was told.
fn was_told_last(told: &NextRecord, step: &PlayStep) -> bool
    requires { told.now.count ≤ 50 }
    ensures { result ≡ true → Contains (next_in told.now) (hop_in step.now) }
{
    if told.count == 0 {
        return false;
    }
    let last = told.steps[told.count - 1];
    last.source == step.source && last.target == step.target
}

/// Adds a step.
fn put(told: &mut NextRecord, step: PlayStep)
    requires { told.old.count < 50 }
    ensures count { told.new.count ≡ told.old.count + 1 }
    ensures steps { next_in told.new ≡ next_in told.old ++ hop_in step ∷ [] }
{
    told.steps[told.count] = step;
    told.count += 1;
}

/// Adds a step, unless it was the last.
fn push(told: &mut NextRecord, step: PlayStep)
    requires { told.old.count < 50 }
    ensures count { told.new.count ≤ told.old.count + 1 }
    ensures kept { (s : Hop) → Contains (next_in told.old) s → Contains (next_in told.new) s }
    ensures only { (s : Hop) → Contains (next_in told.new) s → Contains (next_in told.old) s ⊎ (hop_in step ≡ s) }
    ensures added { Contains (next_in told.new) (hop_in step) }
{
    if !was_told_last(told, &step) {
        put(told, step);
    }
}

/// Adds a step, if it is one, and a move goes on with it that has so many steps more.
fn add(game: &GameBoard, made: &Play, left: u8, step: Option<Step>, told: &mut NextRecord)
    requires few { length (hops_of made.now) + left ≤ 3 }
    requires room { told.old.count < 50 }
    ensures count { told.new.count ≤ told.old.count + 1 }
    ensures kept { (s : Hop) → Contains (next_in told.old) s → Contains (next_in told.new) s }
    ensures only { (s : Hop) → Contains (next_in told.new) s
        → Contains (next_in told.old) s ⊎ IsNextBy left (game_of game.now) (hops_of made.now) s }
    ensures added { (s : Hop) → option_map hop_of step ≡ Some s
        → IsNextBy left (game_of game.now) (hops_of made.now) s → Contains (next_in told.new) s }
{
    let Some(step) = step else {
        return;
    };
    if goes_on(game, &longer(made, step), left) {
        push(told, step_record(&step));
    }
}

/// No step.
fn nothing_next() -> NextRecord
    ensures count { result.count ≡ 0 }
    ensures steps { next_in result ≡ [] }
{
    let nowhere = PlayStep {
        source: 0,
        target: 0,
    };
    NextRecord {
        count: 0,
        steps: [nowhere; 50],
    }
}

/// The steps after which a move goes on that has so many steps more: from the highest place down, by the smaller die
/// first.
fn next_steps(game: &GameBoard, made: &Play, left: u8) -> NextRecord
    requires { length (hops_of made.now) + left ≤ 3 }
    ensures few { result.count ≤ 50 }
    ensures each { (step : Hop) → Contains (next_in result) step
        ↔ IsNextBy left (game_of game.now) (hops_of made.now) step }
{
    let first = game.board().die(FIRST_DIE);
    let second = game.board().die(SECOND_DIE);
    let mut told = nothing_next();
    for passed in 0..PLACES {
        let source = PLACES - passed;
        add(
            game,
            made,
            left,
            step_by(source, first.min(second)),
            &mut told,
        );
        add(
            game,
            made,
            left,
            step_by(source, first.max(second)),
            &mut told,
        );
    }
    told
}

/// Why the player may not make the move.
fn move_status(game: &GameBoard, made: &Play) -> u32
    ensures { result ≡ allowed_status (refusal_of (position_of (game_of game.now)) (move (hops_of made.now))) }
{
    match game.position().allows(&Decision::Move(*made)) {
        Ok(()) => DONE,
        Err(why) => disallowed_status(why),
    }
}

/// How many steps a play has.
fn length_of(play: &Play) -> u8
    ensures { result ≡ length (hops_of play.now) }
{
    play.steps().len() as u8
}

/// Tells the steps that may follow those of a play, or why it is no move, if none begins with it.
fn tell_next(game: &GameBoard, made: &Play, told: &mut NextRecord) -> u32
    ensures { IsTurnTold (game_of game.now) (hops_of made.now) told.old told.new result }
{
    let most = game.position().most_dice();
    let count = length_of(made);
    if count > most || !goes_on(game, made, most - count) {
        return move_status(game, made);
    }
    *told = if count < most {
        next_steps(game, made, most - count - 1)
    } else {
        nothing_next()
    };
    DONE
}

/// The steps that may follow those of a move on a board line: each of them with which a legal move goes on.
#[unsafe(no_mangle)]
pub extern "C" fn fibs_next_steps(line: &[u8], made: &DecisionRecord, next: &mut NextRecord) -> u32
    ensures { AreNextTold line.now (steps_of (decision_in made.now)) next.old next.new result }
{
    let Some(made) = play_made(made) else {
        return NO_DECISION;
    };
    match game_in(line) {
        Err(status) => status,
        Ok(game) => tell_next(&game, &made, next),
    }
}

/// True if a play leads to a board that does not differ from another one.
fn leads_to(game: &GameBoard, play: &Play, after: &Board) -> bool
    ensures { IsTrue result ↔ LeadsTo (game_of game.now) (hops_of play.now) (fields_of after.now) }
{
    match effect(game.board(), &Decision::Move(*play), ANY_DICE) {
        None => false,
        Some(led) => !differs(&led, after),
    }
}

/// The first of these plays that leads to a board.
fn leading(plays: &[Play], game: &GameBoard, after: &Board) -> Option<Play>
    ensures some { IfSome result (λ play. Contains plays.now play
        × LeadsTo (game_of game.now) (hops_of play) (fields_of after.now)) }
    ensures none { IfNone result
        (All (λ play. ¬ LeadsTo (game_of game.now) (hops_of play) (fields_of after.now)) plays.now) }
{
    for play in plays {
        if leads_to(game, play, after) {
            return Some(*play);
        }
    }
    None
}

/// Tells the play of the list that leads to a board.
fn tell_leading(alloc: Global, game: &GameBoard, after: &Board, told: &mut DecisionRecord) -> u32
    ensures { IsLeadingTold (game_of game.now) (fields_of after.now) told.old told.new result }
{
    match game.position().plays(alloc) {
        Err(_) => MEMORY,
        Ok(plays) => match leading(plays.as_slice(), game, after) {
            None => NO_EFFECT,
            Some(play) => {
                *told = play_record(&play);
                DONE
            }
        },
    }
}

/// Tells the play of the list that leads to the same board as a move, or why it is no move.
fn tell_listed(alloc: Global, game: &GameBoard, made: &Play, told: &mut DecisionRecord) -> u32
    ensures { IsListedTold (game_of game.now) (hops_of made.now) told.old told.new result }
{
    allowed_is_carried_out();
    good_is_exact();
    if !is_allowed(game, made) {
        return move_status(game, made);
    }
    match effect(game.board(), &Decision::Move(*made), ANY_DICE) {
        None => NO_EFFECT,
        Some(after) => tell_leading(alloc, game, &after, told),
    }
}

/// The play of a board line's list that leads to the same board as a move.
#[unsafe(no_mangle)]
pub extern "C" fn fibs_listed_play(
    alloc: Global,
    line: &[u8],
    made: &DecisionRecord,
    play: &mut DecisionRecord,
) -> u32
    ensures { IsPlayTold line.now (steps_of (decision_in made.now)) play.old play.new result }
{
    let Some(made) = play_made(made) else {
        return NO_DECISION;
    };
    match game_in(line) {
        Err(status) => status,
        Ok(game) => tell_listed(alloc, &game, &made, play),
    }
}
