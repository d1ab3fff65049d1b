//! Steps of one checker.

ghost use Rattle.std.specs.Prelude.{◌≡◌, ◌-◌, ◌<◌, ◌≤◌, ◌↔◌, IsSome, IfSome};

/// One checker's step from a place to a lower one, in the player's own numbering: places 24 to 1
/// are those that the checkers pass on their way home, 25 is the bar and 0 is off.
///
/// Steps are ordered by source, then by target.
#[derive(Clone, Copy, Debug, PartialEq, Eq, PartialOrd, Ord)]
pub struct Step {
    pub(crate) source: u8,
    pub(crate) target: u8,
    pub ghost valid: { (0 < source) × (source ≤ 25) × (target ≤ 24) },
}

impl Step {
    ghost use Rattle.fibs_rules.specs.Hop.{hop_of};

    /// A step from a place 1 to 25 to a place 0 to 24. None for any other places.
    pub fn new(source: u8, target: u8) -> Option<Step>
        ensures test { IsSome result ↔ ((0 < source) × (source ≤ 25) × (target ≤ 24)) }
        ensures value { IfSome result (λ step. hop_of step ≡ record { source = source; target = target }) }
    {
        if 0 < source && source <= 25 && target <= 24 {
            Some(Step { source, target })
        } else {
            None
        }
    }

    /// The step by which a checker leaves a place by a die. A die past the place takes it off.
    pub(crate) fn by(source: u8, die: u8) -> Step
        requires low { 0 < source }
        requires high { source ≤ 25 }
        requires die { 0 < die }
        ensures { hop_of result ≡ record { source = source; target = source - die } }
    {
        Step {
            source,
            target: source.saturating_sub(die),
        }
    }

    /// Where the checker comes from: 1 to 25.
    pub fn source(&self) -> u8
        ensures value { let hop = hop_of self.now in result ≡ hop.source }
        ensures low { 0 < result }
        ensures high { result ≤ 25 }
    {
        self.source
    }

    /// Where the checker goes: 0 to 24.
    pub fn target(&self) -> u8
        ensures value { let hop = hop_of self.now in result ≡ hop.target }
        ensures high { result ≤ 24 }
    {
        self.target
    }
}
