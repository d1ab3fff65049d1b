//! Laws of steps and plays. Each is a promise; the functions do nothing else.

ghost use Rattle.std.specs.Prelude.{◌≡◌, ◌↔◌, IsTrue};
ghost use Rattle.fibs_rules.specs.Hop.{hop_of};
ghost use Rattle.fibs_rules.specs.PlayValue.{hops_of};
ghost use Rattle.fibs_rules.specs.Laws.{StepsSwap, LegalIsCarriedOut, LegalPlaysAreSteps};

use crate::play::Play;
use crate::step::Step;

/// Steps are equal exactly if their places are.
pub fn steps_are_their_places(a: &Step, b: &Step) -> bool
    ensures test { IsTrue result ↔ (hop_of a.now ≡ hop_of b.now) }
    ensures same { hop_of a.now ≡ hop_of b.now → a.now ≡ b.now }
{
    a == b
}

/// Plays are equal exactly if their steps are.
pub fn plays_are_their_steps(a: &Play, b: &Play) -> bool
    ensures test { IsTrue result ↔ (hops_of a.now ≡ hops_of b.now) }
    ensures same { hops_of a.now ≡ hops_of b.now → a.now ≡ b.now }
{
    a == b
}

/// If two steps by one die, the second from a higher place than the first, lead from one
/// arrangement to another, the same two in the other order lead there too.
pub fn steps_swap()
    ensures { StepsSwap }
{}

/// Each legal play can be carried out as the server carries plays out.
#[tactic(auto, using(crate::proofs::RuleLemmas::LaxPlays::legal_lax))]
pub fn legal_is_carried_out()
    ensures { LegalIsCarriedOut }
{}

/// A legal play has at most four steps, each from a place or the bar to a place or off.
pub fn legal_plays_are_steps()
    ensures { LegalPlaysAreSteps }
{}
