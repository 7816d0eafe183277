// Blocks and payments laid flat: what they spend and make as lists in fixed memory, and where each reference of one list
// stands in another. Every function takes any struct: a count past the last place reads as all places.
#![tactic(auto)]

ghost use Rattle.std.specs.Prelude.{◌≡◌, eqb};
ghost use Rattle.flat.specs.Flat.{zero_entry};
ghost use Rattle.sets.specs.Sets.{any};

use fixed::Filled;
use rules::{Entry, MOST_REFERENCES, Reference};

mod blocks;
mod lists;
mod seek;

pub use crate::blocks::{made_of, payments_block, pending_block, slots_of, spent_of};
pub use crate::lists::{held_refs, made_refs, own_of};
pub use crate::seek::{found, sought, turn};

// References, entries, places in another list, or whether each of some references was found.
pub type Refs = Filled<Reference, MOST_REFERENCES>;

pub type Made = Filled<Entry, MOST_REFERENCES>;

pub type Places = Filled<usize, MOST_REFERENCES>;

pub type Found = Filled<bool, MOST_REFERENCES>;

// Whether an address is in the own list.
pub fn is_own(own: &[u32], address: u32) -> bool
    ensures { result ≡ any (eqb address) own.now }
{
    own.contains(&address)
}

// What an unused place holds.
pub fn zero_entry() -> Entry
    ensures { result ≡ zero_entry }
{
    Entry::default()
}
