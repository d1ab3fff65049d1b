//! Laws of positions and decisions, with those of steps and plays. Each is a promise; the functions do nothing else.

ghost use Rattle.std.specs.Prelude.{◌≡◌, ◌↔◌, IsTrue};
ghost use Rattle.fibs_position.specs.DecisionValue.{decision_of};
ghost use Rattle.fibs_position.specs.Laws.{PhaseIsExact, AllowedIsExact, EffectIsExact, AllowedIsTheUsers, AllowedIsCarriedOut, EffectIsGood, GoodIsExact, SameGameIsExact, SameGameIsALikeness, AllowedDecides, AllowedIsADecision, DecisionsAreValid, AllowedActs, NoThreeInARow};
ghost use Rattle.fibs_position.specs.NumbersOf.{OwnNumbersAreTurned};
ghost use Rattle.fibs_position.specs.Watched.{WatchedIsExact, WatchedIsNotGood};

use crate::decision::Decision;
use crate::direction::Direction;
use crate::disallowed::Disallowed;
use crate::phase::Phase;
use crate::position_fault::PositionFault;
use crate::stake::Stake;
use fibs_fields::boards::laws::{fields_have_their_ranges, is_board_is_exact};
pub use fibs_rules::laws::{
    legal_is_carried_out, legal_plays_are_steps, plays_are_their_steps, steps_are_their_places,
    steps_swap,
};

/// Decisions are equal exactly if their values are.
pub fn decisions_are_their_values(a: &Decision, b: &Decision) -> bool
    ensures test { IsTrue result ↔ (decision_of a.now ≡ decision_of b.now) }
    ensures same { decision_of a.now ≡ decision_of b.now → a.now ≡ b.now }
{
    a == b
}

/// Stakes are equal exactly if they are one.
pub fn stakes_are_themselves(a: &Stake, b: &Stake) -> bool
    ensures { IsTrue result ↔ (a.now ≡ b.now) }
{
    a == b
}

/// Phases are equal exactly if they are one.
pub fn phases_are_themselves(a: &Phase, b: &Phase) -> bool
    ensures { IsTrue result ↔ (a.now ≡ b.now) }
{
    a == b
}

/// Directions are equal exactly if they are one.
pub fn directions_are_themselves(a: &Direction, b: &Direction) -> bool
    ensures { IsTrue result ↔ (a.now ≡ b.now) }
{
    a == b
}

/// By a player's own numbers a place has its own number: 25 less the server's, if he goes up by that.
#[tactic(auto, using(crate::proofs::LawLemmas::OwnNumbers::own_numbers_are_turned))]
pub fn own_numbers_are_turned()
    ensures { OwnNumbersAreTurned }
{}

/// Faults of boards are equal exactly if they are one.
pub fn position_faults_are_themselves(a: &PositionFault, b: &PositionFault) -> bool
    ensures { IsTrue result ↔ (a.now ≡ b.now) }
{
    a == b
}

/// Refusals of decisions are equal exactly if they are one.
pub fn refusals_are_themselves(a: &Disallowed, b: &Disallowed) -> bool
    ensures { IsTrue result ↔ (a.now ≡ b.now) }
{
    a == b
}

/// The function `phase_of` is the table of phases.
pub fn phase_is_exact()
    ensures { PhaseIsExact }
{
    fields_have_their_ranges();
}

/// The function `allowed_of` is the table of decisions allowed.
pub fn allowed_is_exact()
    ensures { AllowedIsExact }
{
    fields_have_their_ranges();
}

/// The function `effect_of` is the table of what decisions lead to.
pub fn effect_is_exact()
    ensures { EffectIsExact }
{
    is_board_is_exact();
}

/// A decision that is allowed is made in a phase in which the user decides.
pub fn allowed_is_the_users()
    ensures { AllowedIsTheUsers }
{
    fields_have_their_ranges();
}

/// A decision that is allowed is carried out.
#[tactic(auto, using(crate::proofs::LawLemmas::CarriedOut::allowed_carried))]
pub fn allowed_is_carried_out()
    ensures { AllowedIsCarriedOut }
{
    fields_have_their_ranges();
}

/// A decision that is carried out leaves a good board, which differs from the one before.
#[tactic(auto, using(crate::proofs::LawLemmas::CarriedOut::effect_good_differs))]
pub fn effect_is_good()
    ensures { EffectIsGood }
{
    fields_have_their_ranges();
}

/// No three decisions are carried out one after another, without a board that comes from elsewhere.
#[tactic(auto, using(crate::proofs::LawLemmas::InARow::no_three))]
pub fn no_three_in_a_row()
    ensures { NoThreeInARow }
{
    fields_have_their_ranges();
}

/// The test `good` is true of exactly the good boards, of all values of fields.
#[tactic(auto, using(crate::proofs::BoardLemmas::GoodTest::good_is_exact))]
pub fn good_is_exact()
    ensures { GoodIsExact }
{
    is_board_is_exact();
}

/// The test `watched` is true of exactly the boards that are watched, of all values of fields.
#[tactic(auto, using(crate::proofs::BoardLemmas::WatchedTest::watched_is_exact))]
pub fn watched_is_exact()
    ensures { WatchedIsExact }
{
    is_board_is_exact();
}

/// A board that is watched is no board of the user's game: nothing is decided on it.
#[tactic(auto, using(crate::proofs::BoardLemmas::WatchedTest::watched_is_not_good))]
pub fn watched_is_not_good()
    ensures { WatchedIsNotGood }
{
    is_board_is_exact();
}

/// The test `same_game` fails exactly for boards that differ.
#[tactic(auto, using(crate::proofs::BoardLemmas::SameGameTest::same_game_is_exact))]
pub fn same_game_is_exact()
    ensures { SameGameIsExact }
{}

/// That boards do not differ is an equivalence.
#[tactic(auto, using(crate::proofs::BoardLemmas::SameGameTest::same_game_is_a_likeness))]
pub fn same_game_is_a_likeness()
    ensures { SameGameIsALikeness }
{}

/// A decision that the function `allowed_of` allows is the user's, whatever the fields are.
#[tactic(auto, using(crate::proofs::LawLemmas::AllowedDecisions::allowed_decides))]
pub fn allowed_decides()
    ensures { AllowedDecides }
{}

/// What is allowed on a good board is a decision that a player can make.
#[tactic(auto, using(crate::proofs::LawLemmas::AllowedDecisions::allowed_is_a_decision))]
pub fn allowed_is_a_decision()
    ensures { AllowedIsADecision }
{
    is_board_is_exact();
    fields_have_their_ranges();
}

/// Every decision has at most four steps, each from a place or the bar to a place or off.
#[tactic(auto, using(crate::proofs::LawLemmas::AllowedDecisions::decisions_are_valid))]
pub fn decisions_are_valid()
    ensures { DecisionsAreValid }
{}

/// What is allowed on a good board is carried out with dice of 1 to 6, and leaves a good board, which differs.
#[tactic(auto, using(crate::proofs::LawLemmas::AllowedDecisions::allowed_acts))]
pub fn allowed_acts()
    ensures { AllowedActs }
{
    is_board_is_exact();
    fields_have_their_ranges();
}
