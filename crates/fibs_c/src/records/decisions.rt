//! Decisions as C has them.

ghost use Rattle.std.specs.Prelude.{◌≡◌, ◌≤◌, true, map, length, option_map};
ghost use Rattle.std.specs.List.{list_all};
ghost use Rattle.fibs_position.specs.DecisionValue.{decision_of as value_of};
ghost use Rattle.fibs_rules.specs.Hop.{hop_of};
ghost use Rattle.fibs_rules.specs.PlayValue.{hops_of};
ghost use Rattle.fibs_c.specs.Records.Decisions.{hop_in, is_step, play_in, decision_in, move_in, as_move, resigning, IsKind, IsMove, IsDecisionAs};

use fibs_position::{Decision, Play, Stake, Step};

/// A step of one checker, in the player's own numbering: from a place 1 to 24 or the bar, 25, to a place 1 to 24 or
/// off, 0.
#[repr(C)]
#[derive(Clone, Copy)]
pub struct PlayStep {
    pub source: u8,
    pub target: u8,
}

/// What a player decides.
#[repr(C)]
#[derive(Clone, Copy)]
pub struct DecisionRecord {
    /// 1 to roll, 2 to double, 3 to accept and 4 to reject a double, 5 to move; 6 to 8 to resign a single game, a
    /// gammon, a backgammon. 0 if there is none.
    pub kind: u8,
    /// How many steps a move has: at most 4.
    pub count: u8,
    pub steps: [PlayStep; 4],
}

/// True if the step goes from a place 1 to 25 to a place 0 to 24.
fn is_step(step: &PlayStep) -> bool
    ensures { result ≡ is_step step.now }
{
    1 <= step.source && step.source <= 25 && step.target <= 24
}

/// True if each step goes so.
fn are_steps(steps: &[PlayStep]) -> bool
    ensures { result ≡ list_all is_step steps.now }
{
    steps.iter().all(is_step)
}

/// These steps as a play.
fn play_of_steps(steps: &[PlayStep]) -> Play
    requires few { length steps.now ≤ 4 }
    requires steps { list_all is_step steps.now ≡ true }
    ensures { hops_of result ≡ map hop_in steps.now }
{
    let mut play = Play::new();
    for step in steps {
        if let Some(step) = Step::new(step.source, step.target) {
            let _pushed = play.push(step);
        }
    }
    play
}

/// The play of the record. None if it has more than four steps, or one of them is no step.
fn play_of(given: &DecisionRecord) -> Option<Play>
    ensures { option_map hops_of result ≡ play_in given.now.count given.now.steps }
{
    if given.count > 4 {
        return None;
    }
    let steps = &given.steps[..usize::from(given.count)];
    if !are_steps(steps) {
        return None;
    }
    Some(play_of_steps(steps))
}

/// The decision of the record.
pub fn decision_of(given: &DecisionRecord) -> Option<Decision>
    ensures { option_map value_of result ≡ decision_in given.now }
{
    match given.kind {
        1 => Some(Decision::Roll),
        2 => Some(Decision::Double),
        3 => Some(Decision::Accept),
        4 => Some(Decision::Reject),
        5 => Some(Decision::Move(play_of(given)?)),
        6 => Some(Decision::Resign(Stake::Normal)),
        7 => Some(Decision::Resign(Stake::Gammon)),
        8 => Some(Decision::Resign(Stake::Backgammon)),
        _ => None,
    }
}

/// A step as C has it.
pub fn step_record(step: &Step) -> PlayStep
    ensures { hop_in result ≡ hop_of step.now }
{
    PlayStep {
        source: step.source(),
        target: step.target(),
    }
}

/// The decision of a kind that has no steps; 0 means no decision.
pub fn of_kind(kind: u8) -> DecisionRecord
    ensures { IsKind result kind }
{
    let nowhere = PlayStep {
        source: 0,
        target: 0,
    };
    DecisionRecord {
        kind,
        count: 0,
        steps: [nowhere; 4],
    }
}

/// A play as C has it.
pub fn play_record(play: &Play) -> DecisionRecord
    ensures play { IsMove result (hops_of play.now) }
    ensures told { move_in result ≡ as_move (hops_of play.now) }
{
    let steps = play.steps();
    let mut told = of_kind(5);
    for i in 0..steps.len() {
        told.steps[i] = step_record(&steps[i]);
    }
    told.count = steps.len() as u8;
    told
}

/// The kind of a resignation.
fn resigning(stake: Stake) -> u8
    ensures { result ≡ resigning stake }
{
    match stake {
        Stake::Normal => 6,
        Stake::Gammon => 7,
        Stake::Backgammon => 8,
    }
}

/// A decision as C has it.
pub fn decision_record(decision: &Decision) -> DecisionRecord
    ensures { IsDecisionAs result (value_of decision.now) }
{
    match decision {
        Decision::Roll => of_kind(1),
        Decision::Double => of_kind(2),
        Decision::Accept => of_kind(3),
        Decision::Reject => of_kind(4),
        Decision::Move(play) => play_record(play),
        Decision::Resign(stake) => of_kind(resigning(*stake)),
    }
}
