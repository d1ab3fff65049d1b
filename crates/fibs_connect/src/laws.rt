//! Laws of what comes while a user types. Each function does nothing: its contract is the law.
ghost use Rattle.fibs_connect.specs.Weaving.{LinesComeInOrder};

/// Whatever is heard between them, the lines that come are those that were typed, in their order: none is lost, and
/// none comes twice.
#[tactic(auto, using(crate::proofs::TypedLemmas::Order::lines_come_in_order))]
pub fn lines_come_in_order()
    ensures { LinesComeInOrder }
{}
