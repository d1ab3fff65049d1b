//! Arrangements as the keys of a map.

ghost use Rattle.std.specs.Prelude.{◌≡◌, ◌∷◌, []};
ghost use Rattle.fibs_rules.specs.Reached.{checkers_eq};

use crate::arrangement::Arrangement;
use std::hash::{Hash, Hasher};

/// An arrangement that a play leads to.
#[derive(Clone, Copy)]
pub(crate) struct Reached {
    pub(crate) at: Arrangement,
}

/// The arrangements have the same counts. It is not inlined, since the code that a call of it in a map becomes would
/// then take each key apart byte by byte.
#[inline(never)]
fn same(a: &Arrangement, b: &Arrangement) -> bool
    ensures { result ≡ checkers_eq a.now b.now }
{
    a == b
}

impl PartialEq for Reached {
    ghost use Rattle.fibs_rules.specs.ReachedValue.{reached_eq, reached_equiv};
    ghost use Rattle.std.specs.Cmp.{partial_equiv_from_equiv};

    ghost eq = { reached_eq };

    ghost laws = { partial_equiv_from_equiv reached_equiv };

    fn eq(&self, other: &Self) -> bool {
        same(&self.at, &other.at)
    }
}

impl Eq for Reached {
    ghost use Rattle.fibs_rules.specs.ReachedValue.{reached_equiv};

    ghost laws = { reached_equiv };
}

/// The counts of each side are hashed in one write.
impl Hash for Reached {
    ghost use Rattle.fibs_rules.specs.ReachedValue.{same_counts};

    ghost hash_input = { λ r. r.at.own ∷ r.at.other ∷ [] };

    ghost respects_eq = { same_counts };

    fn hash<H: Hasher>(&self, state: &mut H) {
        let (own, other) = self.at.counts();
        state.write(own);
        state.write(other);
    }
}
