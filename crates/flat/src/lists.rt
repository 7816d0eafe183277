// Lists of entries laid flat: the own ones of a list, and the references of a list or of the pool's entries.
ghost use Rattle.std.specs.Prelude.{map, ◌≡◌};
ghost use Rattle.flat.specs.Flat.{made_in, made_of, refs_of};
ghost use Rattle.pool.specs.View.{entries_of};
ghost use Rattle.rules.specs.Chain.{is_own};
ghost use Rattle.sets.specs.Sets.{keep};

use crate::{Made, Refs, is_own, zero_entry};
use pool::Pool;

// The entries of a list that are own.
pub fn own_of(made: Made, own: &[u32]) -> Made
    ensures { result ≡ made_of (keep (is_own own.now) (made_in made)) }
{
    let mut kept = Made::none(zero_entry());
    for entry in made.as_slice() {
        if is_own(own, entry.address) {
            kept.push(*entry);
        }
    }
    kept
}

// The references of a list of entries.
pub fn made_refs(made: Made) -> Refs
    ensures { result ≡ refs_of (map (λ e. e.reference) (made_in made)) }
{
    let mut refs = Refs::none(chain::zero_reference());
    for entry in made.as_slice() {
        refs.push(entry.reference);
    }
    refs
}

// The references of the pool's entries. A loop over a closure that reads the reference would be no shorter.
pub fn held_refs(w: &Pool) -> Refs
    ensures { result ≡ refs_of (map (λ h. h.entry.reference) (entries_of w.now)) }
{
    let mut refs = Refs::none(chain::zero_reference());
    for held in w.entries() {
        refs.push(held.entry.reference);
    }
    refs
}
