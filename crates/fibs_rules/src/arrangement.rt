//! The checkers of both sides.

ghost use Rattle.std.specs.Prelude.{◌≡◌, ◌+◌, ◌-◌, ◌*◌, ◌<◌, ◌≤◌, ◌==◌, ◌↔◌, sum, map, length, slice_index, IsSome, IfSome, Some, None};
ghost use Rattle.std.specs.Bool.{OnTrue, OnFalse};
ghost use Rattle.std.specs.List.{list_all};
ghost use Rattle.fibs_rules.specs.Hop.{hop_of};
ghost use Rattle.fibs_rules.specs.Checkers.{Checkers, moved, is_empty_from, is_open};
ghost use Rattle.fibs_rules.specs.OneChecker.{can_leave, one_of};
ghost use Rattle.fibs_rules.specs.LaxPlays.{lax_one, lax_of};

use crate::step::Step;
use std::marker::Model;

/// The checkers of both sides, fifteen each, in the player's own numbering.
///
/// `own` counts the player's on places 1 to 24, on the bar (25) and off (0); `other` those of the
/// other side on the same places, on its bar (0) and off (25).
#[derive(Clone, Copy, Debug, PartialEq, Eq, PartialOrd, Ord)]
pub struct Arrangement {
    own: [u8; 26],
    other: [u8; 26],
}

impl Model for Arrangement {
    ghost Value = { Checkers };

    ghost view = { λ a. record { own = a.own; other = a.other } };

    ghost invariant = { λ a. (sum a.own ≡ 15) × (sum a.other ≡ 15) };

    ghost inverse = { λ p. record { own = p.own; other = p.other } };
}

/// How many checkers there are.
pub fn total(counts: &[u8]) -> u32
    requires { length counts.now ≤ 26 }
    ensures value { result ≡ sum counts.now }
    ensures small { result ≤ 255 * length counts.now }
{
    counts.iter().map(|count| u32::from(*count)).sum()
}

fn all_zero(counts: &[u8]) -> bool
    ensures { result ≡ list_all (λ n. n == 0) counts.now }
{
    counts.iter().all(|n| *n == 0)
}

impl Arrangement {
    /// The arrangement of these counts, if each side has fifteen.
    pub fn new(own: [u8; 26], other: [u8; 26]) -> Option<Self>
        ensures test { IsSome result ↔ ((sum own ≡ 15) × (sum other ≡ 15)) }
        ensures value { IfSome result (λ a. a ≡ record { own = own; other = other }) }
    {
        if total(&own) == 15 && total(&other) == 15 {
            Some(Arrangement { own, other })
        } else {
            None
        }
    }

    /// The arrangement of these counts.
    pub fn of_counts(own: [u8; 26], other: [u8; 26]) -> Self
        requires own { sum own ≡ 15 }
        requires other { sum other ≡ 15 }
        ensures { result ≡ record { own = own; other = other } }
    {
        Arrangement { own, other }
    }

    /// The player's checkers on a place, off (0) or on the bar (25).
    pub fn own(&self, place: u8) -> u8
        requires { place ≤ 25 }
        ensures value { result ≡ slice_index self.now.own place }
        ensures few { result ≤ 15 }
    {
        self.own[usize::from(place)]
    }

    /// The opponent's checkers on a place, on his bar (0) or off (25).
    pub fn other(&self, place: u8) -> u8
        requires { place ≤ 25 }
        ensures value { result ≡ slice_index self.now.other place }
        ensures few { result ≤ 15 }
    {
        self.other[usize::from(place)]
    }

    /// The counts of both sides.
    pub(crate) fn counts(&self) -> (&[u8; 26], &[u8; 26])
        ensures own { result.0.now ≡ self.now.own }
        ensures other { result.1.now ≡ self.now.other }
    {
        (&self.own, &self.other)
    }

    /// No own checker is at this place or above it.
    fn is_empty_from(&self, place: u8) -> bool
        requires { place ≤ 26 }
        ensures { result ≡ is_empty_from self.now place }
    {
        all_zero(&self.own[place as usize..])
    }

    /// The other side does not hold this place with two or more.
    fn is_open(&self, to: u8) -> bool
        requires { to ≤ 25 }
        ensures { result ≡ is_open self.now to }
    {
        self.other[to as usize] < 2 || to == 0
    }

    /// The arrangement after one own checker went from a place to another.
    pub(crate) fn moved(&self, from: u8, to: u8) -> Self
        requires from { from ≤ 25 }
        requires occupied { 0 < slice_index self.now.own from }
        requires to { to ≤ 24 }
        ensures { result ≡ moved self.now from to }
    {
        let mut next = *self;
        next.own[from as usize] -= 1;
        next.own[to as usize] += 1;
        if 0 < to && next.other[to as usize] == 1 {
            next.other[to as usize] -= 1;
            next.other[0] += 1;
        }
        next
    }

    /// A checker may leave this place by this die, wherever it comes to.
    fn can_leave(&self, from: u8, die: u8) -> bool
        requires from { from ≤ 25 }
        ensures { result ≡ can_leave self.now from die }
    {
        if 0 < self.own[25] {
            return from == 25;
        }
        0 < self.own[from as usize]
            && (die < from
                || (self.is_empty_from(7) && (from == die || self.is_empty_from(from + 1))))
    }

    /// One own checker may go from a place by a die. Most places are empty, and are passed over first.
    #[inline(always)]
    pub(crate) fn may_go(&self, from: u8, die: u8) -> bool
        requires from { from ≤ 25 }
        requires placed { 0 < from }
        requires die { 0 < die }
        ensures goes { OnTrue result (one_of self.now from die ≡ Some (moved self.now from (from - die))) }
        ensures stays { OnFalse result (one_of self.now from die ≡ None) }
        ensures occupied { OnTrue result (0 < slice_index self.now.own from) }
    {
        0 < self.own[from as usize]
            && self.can_leave(from, die)
            && self.is_open(from.saturating_sub(die))
    }

    /// The arrangement after one own checker went from a place by a die. None if the rules
    /// forbid it.
    pub(crate) fn one(&self, from: u8, die: u8) -> Option<Self>
        requires from { from ≤ 25 }
        requires placed { 0 < from }
        requires die { 0 < die }
        ensures { result ≡ one_of self.now from die }
    {
        if self.may_go(from, die) {
            Some(self.moved(from, from.saturating_sub(die)))
        } else {
            None
        }
    }

    /// One step as the server carries it out.
    fn lax_one(&self, step: Step) -> Option<Self>
        ensures { result ≡ lax_one self.now (hop_of step) }
    {
        let from = step.source();
        let to = step.target();
        if 0 < self.own[from as usize] && self.is_open(to) {
            Some(self.moved(from, to))
        } else {
            None
        }
    }

    /// The arrangement after these steps, as the server carries them out. None if it does not.
    pub fn carried_out(&self, steps: &[Step]) -> Option<Self>
        ensures { result ≡ lax_of self.now (map hop_of steps.now) }
    {
        let mut at = *self;
        for step in steps {
            match at.lax_one(*step) {
                Some(next) => at = next,
                None => return None,
            }
        }
        Some(at)
    }
}
