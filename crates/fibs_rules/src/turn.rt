//! Turns: an arrangement to be played by the two dice shown.

ghost use Rattle.std.specs.Prelude.{◌≡◌, ◌==◌, ◌&&◌, ◌-◌, ◌<◌, ◌≤◌, ◌↔◌, ◌||◌, map, IsTrue, take, max, OnOk, IfOk};
ghost use Rattle.std.specs.List.{fold};
ghost use Rattle.fibs_rules.specs.Hop.{hop_of};
ghost use Rattle.fibs_rules.specs.PlayValue.{hops_of};
ghost use Rattle.fibs_rules.specs.Search.{AreDice, kept_in, nothing, noted, all_in_order, all_of};
ghost use Rattle.fibs_rules.specs.Runs.{Standing, held_of, IsMost, CanMove, most_of, longest, follows, can_play, can_move};
ghost use Rattle.fibs_rules.specs.LegalPlays.{LegalPlay, PlayList, are_two, larger_first, legal_of};

use crate::arrangement::Arrangement;
use crate::play::Play;
use crate::plays::{Kept, descending, visit};
use crate::search::{follows, longest};
use crate::step::Step;
use std::alloc::{AllocError, Global};
use std::marker::Model;

/// An arrangement, and the two dice shown, each 1 to 6, or 0 for none.
#[derive(Clone, Copy, Debug)]
pub struct Turn {
    arrangement: Arrangement,
    first: u8,
    second: u8,
}

impl Model for Turn {
    ghost Value = { Standing };

    ghost view = { λ t. record { checkers = t.arrangement; first = t.first; second = t.second } };

    ghost invariant = { λ t. (t.first ≤ 6) × (t.second ≤ 6) };

    ghost inverse = { λ p. record { arrangement = p.checkers; first = p.first; second = p.second } };
}

/// The dice that two shown dice give, and how many they are.
#[derive(Clone, Copy)]
struct Held {
    dice: [u8; 4],
    count: usize,
    ghost within: { count ≤ 4 },
}

/// The dice that two shown dice give: different ones each once, equal ones four times.
fn dice_given(a: u8, b: u8) -> Held
    ensures { take result.count result.dice ≡ held_of a b }
{
    if a == b {
        Held {
            dice: [a; 4],
            count: if a == 0 { 0 } else { 4 },
        }
    } else if a == 0 {
        Held {
            dice: [b, 0, 0, 0],
            count: 1,
        }
    } else {
        Held {
            dice: [a, b, 0, 0],
            count: if b == 0 { 1 } else { 2 },
        }
    }
}

impl Turn {
    pub fn new(arrangement: Arrangement, first: u8, second: u8) -> Self
        requires first { first ≤ 6 }
        requires second { second ≤ 6 }
        ensures { result ≡ record { checkers = arrangement; first = first; second = second } }
    {
        Turn {
            arrangement,
            first,
            second,
        }
    }

    pub fn arrangement(&self) -> &Arrangement
        ensures { result.now ≡ self.now.checkers }
    {
        &self.arrangement
    }

    /// No die is shown.
    pub fn no_dice(&self) -> bool
        ensures { result ≡ ((self.now.first == 0) && (self.now.second == 0)) }
    {
        self.first == 0 && self.second == 0
    }

    /// How many dice can be played in this order of the two shown.
    fn longest_of(&self, a: u8, b: u8) -> u8
        requires dice { AreDice (held_of a b) }
        ensures value { result ≡ longest self.now.checkers (held_of a b) }
        ensures short { result ≤ 4 }
    {
        let held = dice_given(a, b);
        longest(&self.arrangement, &held.dice[..held.count])
    }

    fn most(&self) -> u8
        ensures value { result ≡ most_of self.now }
        ensures first { self.now.first ≤ 6 }
        ensures second { self.now.second ≤ 6 }
    {
        let forward = self.longest_of(self.first, self.second);
        if !self.are_two() {
            return forward;
        }
        forward.max(self.longest_of(self.second, self.first))
    }

    /// The length of a longest run.
    pub fn most_dice(&self) -> u8
        ensures { IsMost self.now result }
    {
        self.most()
    }

    /// This die is shown, and can be played.
    fn can_play(&self, die: u8) -> bool
        requires { die ≤ 6 }
        ensures { result ≡ can_play self.now.checkers die }
    {
        0 < die && 0 < longest(&self.arrangement, &[die])
    }

    fn can_play_either(&self) -> bool
        ensures value { result ≡ can_move self.now }
        ensures first { self.now.first ≤ 6 }
        ensures second { self.now.second ≤ 6 }
    {
        self.can_play(self.first) || self.can_play(self.second)
    }

    /// Some run has a step.
    pub fn can_move(&self) -> bool
        ensures { IsTrue result ↔ CanMove self.now }
    {
        self.can_play_either()
    }

    /// These steps can be played by the dice in this order of the two shown.
    fn follows_order(&self, a: u8, b: u8, steps: &[Step]) -> bool
        requires dice { AreDice (held_of a b) }
        ensures { result ≡ follows self.now.checkers (held_of a b) (map hop_of steps.now) }
    {
        let held = dice_given(a, b);
        follows(&self.arrangement, &held.dice[..held.count], steps)
    }

    /// Two different dice are held.
    fn are_two(&self) -> bool
        ensures { result ≡ are_two self.now.first self.now.second }
    {
        0 < self.first && 0 < self.second && self.first != self.second
    }

    /// Two different dice are held, and the larger can be played.
    fn larger_first(&self) -> bool
        ensures { result ≡ larger_first self.now }
    {
        self.are_two() && self.can_play(self.larger())
    }

    /// The larger of the two dice shown.
    fn larger(&self) -> u8
        ensures value { result ≡ max self.now.first self.now.second }
        ensures high { result ≤ 6 }
    {
        self.first.max(self.second)
    }

    fn legal(&self, steps: &[Step]) -> bool
        ensures value { result ≡ legal_of self.now (map hop_of steps.now) }
        ensures first { self.now.first ≤ 6 }
        ensures second { self.now.second ≤ 6 }
    {
        if steps.len() != self.most() as usize {
            return false;
        }
        if steps.len() == 1 && self.larger_first() {
            return follows(&self.arrangement, &[self.larger()], steps);
        }
        self.follows_order(self.first, self.second, steps)
            || self.follows_order(self.second, self.first, steps)
    }

    /// The play is legal.
    pub fn is_legal(&self, play: &Play) -> bool
        ensures { IsTrue result ↔ LegalPlay self.now (hops_of play.now) }
    {
        self.legal(play.steps())
    }

    /// Notes each run of this length in one order of the dice.
    fn visit_order(&self, kept: &mut Kept, a: u8, b: u8, most: u8) -> Result<(), AllocError>
        requires dice { AreDice (held_of a b) }
        requires most { most ≡ most_of self.now }
        ensures ok { OnOk result (kept_in kept.new ≡ fold noted (kept_in kept.old) (all_in_order self.now a b)) }
    {
        let held = dice_given(a, b);
        let count = held.count.min(most as usize);
        visit(
            kept,
            &self.arrangement,
            &held.dice[..count],
            25,
            Play::new(),
        )
    }

    /// For how many plays room is made at once: few positions have more.
    fn room(&self) -> usize {
        if self.are_two() { 36 } else { 72 }
    }

    /// The greatest play for each arrangement that a legal play reaches.
    fn collected(&self, alloc: Global) -> Result<Kept, AllocError>
        ensures kept { IfOk result (λ m. kept_in m ≡ fold noted nothing (all_of self.now)) }
        ensures first { self.now.first ≤ 6 }
        ensures second { self.now.second ≤ 6 }
    {
        let most = self.most();
        let mut kept = Kept::with_capacity(alloc, self.room())?;
        if most == 1 && self.larger_first() {
            visit(
                &mut kept,
                &self.arrangement,
                &[self.larger()],
                25,
                Play::new(),
            )?;
            return Ok(kept);
        }
        self.visit_order(&mut kept, self.first, self.second, most)?;
        if self.are_two() {
            self.visit_order(&mut kept, self.second, self.first, most)?;
        }
        Ok(kept)
    }

    /// For each arrangement that a legal play reaches, the greatest such play, the greatest
    /// first. If no checker can go that is the empty play alone.
    pub fn plays(&self, alloc: Global) -> Result<Vec<Play>, AllocError>
        ensures { IfOk result (λ plays. PlayList self.now (map hops_of plays.items)) }
    {
        let kept = self.collected(alloc)?;
        descending(alloc, &kept)
    }
}
