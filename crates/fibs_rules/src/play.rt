//! Plays: up to four steps in a row.

ghost use Rattle.std.specs.Prelude.{◌≡◌, ◌<◌, ◌≤◌, ◌↔◌, ◌++◌, ◌∷◌, [], length, map, drop, true, IsTrue};
ghost use Rattle.std.specs.Bool.{OnTrue, OnFalse};
ghost use Rattle.std.specs.List.{list_all};
ghost use Rattle.fibs_rules.specs.Hop.{hop_of, is_blank};

use crate::step::Step;
use std::cmp::Ordering;
use std::fmt;

/// A list of 0 to 4 steps, as many as one roll of the dice can give.
///
/// Plays are equal if their steps are.
#[derive(Clone, Copy, PartialEq, Eq)]
pub struct Play {
    steps: [Step; 4],
    len: usize,
    pub ghost full: { length steps ≡ 4 },
    pub ghost short: { len ≤ 4 },
    pub ghost rest: { list_all is_blank (drop len steps) ≡ true },
}

impl Play {
    ghost use Rattle.fibs_rules.specs.PlayValue.{hops_of};
    ghost use Rattle.fibs_rules.specs.PlayNumber.{number_from};
    ghost use Rattle.fibs_rules.specs.LegalPlays.{play_cmp};

    /// The play of no step.
    pub fn new() -> Play
        ensures { hops_of result ≡ [] }
    {
        let blank = Step::by(1, 1);
        Play {
            steps: [blank; 4],
            len: 0,
        }
    }

    /// The steps, in the order in which they are played.
    pub fn steps(&self) -> &[Step]
        ensures value { map hop_of result.now ≡ hops_of self.now }
        ensures few { length result.now ≤ 4 }
    {
        &self.steps[..self.len]
    }

    /// Appends a step. False, and nothing is changed, if there are four already.
    pub fn push(&mut self, step: Step) -> bool
        ensures room { IsTrue result ↔ (length (hops_of self.old) < 4) }
        ensures pushed { OnTrue result (hops_of self.new ≡ hops_of self.old ++ hop_of step ∷ []) }
        ensures full { OnFalse result (self.new ≡ self.old) }
    {
        if self.len == 4 {
            return false;
        }
        *self = self.with(step);
        true
    }

    /// The places of the four steps, in use or not, as the bytes of a number, the first step's highest.
    fn number(&self) -> u64
        ensures { result ≡ number_from 0 self.now.steps }
    {
        let [a, b, c, d] = self.steps;
        u64::from_be_bytes([
            a.source, a.target, b.source, b.target, c.source, c.target, d.source, d.target,
        ])
    }

    /// How two plays compare: by their first steps, then by their second, and so on.
    pub(crate) fn order(&self, other: &Play) -> Ordering
        ensures { result ≡ play_cmp (hops_of self.now) (hops_of other.now) }
    {
        if self.len == other.len {
            self.number().cmp(&other.number())
        } else {
            self.steps().cmp(other.steps())
        }
    }

    /// The play with one more step.
    pub(crate) fn with(self, step: Step) -> Play
        requires { length (hops_of self) < 4 }
        ensures { hops_of result ≡ hops_of self ++ hop_of step ∷ [] }
    {
        let mut steps = self.steps;
        steps[self.len] = step;
        Play {
            steps,
            len: self.len + 1,
        }
    }
}

impl Default for Play {
    ghost use Rattle.fibs_rules.specs.PlayValue.{hops_of};

    /// The play of no step.
    fn default() -> Play
        ensures { hops_of result ≡ [] }
    {
        Play::new()
    }
}

/// The steps alone.
impl fmt::Debug for Play {
    fn fmt<W: fmt::Write>(&self, f: &mut fmt::Formatter<W>) -> fmt::Result {
        write!(f, "{:?}", self.steps())
    }
}
