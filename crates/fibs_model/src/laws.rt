//! Laws of the world. Each function does nothing else: its contract is the law.

ghost use Rattle.fibs_model.specs.Crossings.{CrossingsJoin};

pub use crate::machine::laws::{agrees, can_rest, headline, joint_statement, once, one_step};

/// What crosses a carrier at several events is what crosses at each, one after another.
#[tactic(auto, using(crate::proofs::Likeness::Crossing::crossings_join))]
pub fn crossings_join()
    ensures { CrossingsJoin }
{}
