//! The search through runs of steps.

ghost use Rattle.std.specs.Prelude.{◌≡◌, ◌+◌, ◌-◌, ◌≤◌, length, map};
ghost use Rattle.fibs_rules.specs.Hop.{hop_of};
ghost use Rattle.fibs_rules.specs.Search.{AreDice, longest_tried, next_top};
ghost use Rattle.fibs_rules.specs.Runs.{longest, follows};

use crate::arrangement::Arrangement;
use crate::step::Step;

/// The highest place from which the step after one by this die is to be tried. Two steps by one
/// die may be played in either order, and the higher source first makes the greater play.
pub(crate) fn next_top(die: u8, rest: &[u8], source: u8) -> u8
    requires { source ≤ 25 }
    ensures value { result ≡ next_top die rest.now source }
    ensures high { result ≤ 25 }
{
    if !rest.is_empty() && rest[0] == die {
        source
    } else {
        25
    }
}

/// How many of these dice can be played one after another, the first step from a place up to
/// `top`.
#[tactic(auto, using(crate::proofs::SearchLemmas::LongestLoop::best_of_none, crate::proofs::SearchLemmas::LongestLoop::best_of_some, crate::proofs::SearchLemmas::LongestLoop::best_of_skip, crate::proofs::SearchLemmas::LongestLoop::longest_more, crate::proofs::SearchLemmas::LongestLoop::longest_none))]
fn longest_from(p: &Arrangement, dice: &[u8], top: u8) -> u8
    requires few { length dice.now ≤ 4 }
    requires dice { AreDice dice.now }
    requires top { top ≤ 25 }
    ensures result { result ≡ longest_tried p.now dice.now top }
    ensures short { result ≤ length dice.now }
{
    if dice.is_empty() {
        return 0;
    }
    let die = dice[0];
    let rest = &dice[1..];
    let mut best = 0;
    for place in 0..top {
        if best as usize == dice.len() {
            return best;
        }
        let from = place + 1;
        if p.may_go(from, die) {
            let next = p.moved(from, from.saturating_sub(die));
            best = best.max(1 + longest_from(&next, rest, next_top(die, rest, from)));
        }
    }
    best
}

/// How many of these dice can be played one after another.
#[tactic(auto, using(crate::proofs::SearchLemmas::FallingRuns::tried_is_longest))]
pub(crate) fn longest(p: &Arrangement, dice: &[u8]) -> u8
    requires few { length dice.now ≤ 4 }
    requires dice { AreDice dice.now }
    ensures result { result ≡ longest p.now dice.now }
    ensures short { result ≤ length dice.now }
{
    longest_from(p, dice, 25)
}

/// These steps can be played one after another by the first of these dice.
pub(crate) fn follows(p: &Arrangement, dice: &[u8], steps: &[Step]) -> bool
    requires { AreDice dice.now }
    ensures { result ≡ follows p.now dice.now (map hop_of steps.now) }
{
    if steps.is_empty() {
        return true;
    }
    if dice.is_empty() {
        return false;
    }
    let step = steps[0];
    let die = dice[0];
    let source = step.source();
    if step.target() != source.saturating_sub(die) {
        return false;
    }
    match p.one(source, die) {
        Some(next) => follows(&next, &dice[1..], &steps[1..]),
        None => false,
    }
}
