//! All plays by given dice, one for each arrangement that they lead to.

ghost use Rattle.std.specs.Prelude.{◌≡◌, ◌+◌, ◌≤◌, length, OnOk, IfOk, Some, IsPermutation};
ghost use Rattle.std.specs.List.{fold};
ghost use Rattle.std.specs.List.Sorted.{IsSortedBy};
ghost use Rattle.std.specs.Ordering.{is_lt};
ghost use Rattle.std.specs.HashMap.{IsUnique, values};
ghost use Rattle.fibs_rules.specs.PlayValue.{hops_of};
ghost use Rattle.fibs_rules.specs.Search.{AreDice, kept_in, greater, noted, reaches};
ghost use Rattle.fibs_rules.specs.LegalPlays.{play_cmp};
ghost use Rattle.fibs_rules.specs.ReachedValue.{reached_eq};

use crate::arrangement::Arrangement;
use crate::play::Play;
use crate::reached::Reached;
use crate::step::Step;
use std::alloc::{AllocError, Global};
use std::collections::HashMap;
use std::collections::hash_map::Entry;

/// The greatest play found so far for each arrangement that is reached.
pub(crate) type Kept = HashMap<Reached, Play>;

/// The greater of a play that is kept and one that is found.
fn greater(kept: Play, found: Play) -> Play
    ensures { hops_of result ≡ greater (Some (hops_of kept)) (hops_of found) }
{
    if kept.order(&found).is_lt() {
        found
    } else {
        kept
    }
}

/// Keeps the greatest play for each arrangement.
fn note(kept: &mut Kept, leads: &Arrangement, found: Play) -> Result<(), AllocError>
    ensures ok { OnOk result (kept_in kept.new
        ≡ noted (kept_in kept.old) (record { play = hops_of found; leads = leads.now })) }
{
    match kept.entry(Reached { at: *leads })? {
        Entry::Occupied(spot) => {
            let best = spot.into_mut();
            *best = greater(*best, found);
        }
        Entry::Vacant(spot) => {
            let _best = spot.insert(found);
        }
    }
    Ok(())
}

#[tactic(auto, using(crate::proofs::PlayListLemmas::VisitLoop::reaches_none, crate::proofs::PlayListLemmas::VisitLoop::reaches_more, crate::proofs::PlayListLemmas::VisitLoop::reaches_start))]
/// Notes each play that goes on from a play by just these dice, its next step from a place up to
/// `top`, and each later one from no higher place than the one before. Two steps may be played in
/// either order, and the higher source first makes the greater play.
pub(crate) fn visit(
    kept: &mut Kept,
    p: &Arrangement,
    dice: &[u8],
    top: u8,
    play: Play,
) -> Result<(), AllocError>
    requires room { length (hops_of play) + length dice.now ≤ 4 }
    requires dice { AreDice dice.now }
    requires top { top ≤ 25 }
    ensures ok { OnOk result (kept_in kept.new
        ≡ fold noted (kept_in kept.old) (reaches p.now dice.now top (hops_of play))) }
{
    if dice.is_empty() {
        return note(kept, p, play);
    }
    let die = dice[0];
    let rest = &dice[1..];
    for place in 0..top {
        let from = place + 1;
        if p.may_go(from, die) {
            let next = p.moved(from, from.saturating_sub(die));
            let longer = play.with(Step::by(from, die));
            visit(kept, &next, rest, from, longer)?;
        }
    }
    Ok(())
}

/// Puts the greatest play first. The search finds the lower plays first: reversed, the list is almost in order.
fn sort(plays: &mut [Play])
    ensures same { IsPermutation plays.old plays.new }
    ensures sorted { IsSortedBy (λ a b. is_lt (play_cmp (hops_of b) (hops_of a))) plays.new }
{
    plays.reverse();
    plays.sort_unstable_by(|a, b| b.order(a));
}

/// The plays that are kept, the greatest first.
pub(crate) fn descending(alloc: Global, kept: &Kept) -> Result<Vec<Play>, AllocError>
    ensures plays { IfOk result (λ v. IsPermutation (values kept.now) v.items
        × IsSortedBy (λ a b. is_lt (play_cmp (hops_of b) (hops_of a))) v.items) }
    ensures unique { IsUnique reached_eq kept.now }
{
    let mut plays: Vec<Play> = kept.values().copied().collect(alloc)?;
    sort(&mut plays);
    Ok(plays)
}
