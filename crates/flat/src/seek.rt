// Where each reference of one list stands in another.
ghost use Rattle.std.specs.Prelude.{cond, map, ◌≡◌, T, ℕ};
ghost use Rattle.flat.specs.Flat.{found_of, places_of, refs_in, seek};
ghost use Rattle.rules.specs.Chain.{before_reference, same_reference};
ghost use Rattle.rules.specs.declared.Reference.{Reference};
ghost use Rattle.sets.specs.Sets.{ascending, has};

use crate::{Found, Places, Refs};
use rules::Reference;

// Where the next turn of a search goes on: at the start for a new reference, else at the next place. The searches below count no
// turns; it stands as a public function.
pub fn turn(done: bool, next: usize) -> usize
    ensures { result ≡ cond done 0 next }
{
    if done { 0 } else { next }
}

// Whether references strictly ascend.
fn rises(refs: &[Reference]) -> bool
    ensures { result ≡ ascending before_reference refs.now }
{
    refs.is_sorted_by(|a, b| chain::before_reference(*a, *b))
}

// The place of the first same reference, or the count where there is none, in a list that ascends: by halves.
fn place_by_halves(r: &Reference, refs: &[Reference]) -> usize
    requires { T (ascending before_reference refs.now) }
    ensures { result ≡ seek r.now refs.now }
{
    refs.binary_search(r).unwrap_or(refs.len())
}

// The same in a list in any order.
fn place_by_turns(r: &Reference, refs: &[Reference]) -> usize
    ensures { result ≡ seek r.now refs.now }
{
    refs.iter()
        .position(|x| chain::same_reference(*r, *x))
        .unwrap_or(refs.len())
}

// The places of some references in a list, each by the same search.
fn sought_by<F: Fn(&Reference) -> usize>(refs: Refs, place: F) -> Places
    requires { F.IsAlwaysCallable place }
    ensures { (f : Reference → ℕ) → ((x : _) (n : ℕ) → F.post place x n → n ≡ f x.now) → result ≡ places_of (map f (refs_in refs)) }
{
    let mut at = Places::none(0);
    for r in refs.as_slice() {
        at.push(place(r));
    }
    at
}

// For each reference of `a`, the place of the first same one in `b`, or the count of `b` where there is none.
pub fn sought(a: Refs, b: Refs) -> Places
    ensures { result ≡ places_of (map (λ x. seek x (refs_in b)) (refs_in a)) }
{
    let those = b.as_slice();
    if rises(those) {
        sought_by(a, |r| place_by_halves(r, those))
    } else {
        sought_by(a, |r| place_by_turns(r, those))
    }
}

// Whether each reference of `a` stands in `b`.
pub fn found(a: Refs, b: Refs) -> Found
    ensures { result ≡ found_of (map (λ x. has same_reference x (refs_in b)) (refs_in a)) }
{
    let stop = b.as_slice().len();
    let mut found = Found::none(false);
    for place in sought(a, b).as_slice() {
        found.push(*place < stop);
    }
    found
}
