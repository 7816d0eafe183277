// The wallet as the code holds it: each reference and each payment once, with a mark for every held state in which it
// stands. Mark k is bit k of a word, and bit 0 is the present state.
#![tactic(auto)]

ghost use Rattle.std.specs.Prelude.{◌≡◌, ◌≤◌, length, take};
ghost use Rattle.pool.specs.Marks.{marked};
ghost use Rattle.pool.specs.View.{entries_of, payments_of};
ghost use Rattle.rules.specs.Sizes.{most_own, most_payments, most_references};

use chain::Transaction;
use rules::{Entry, MOST_OWN, MOST_PAYMENTS, MOST_REFERENCES};

// An entry with the held states in whose UTxO and expected sets it stands.
#[derive(Clone, Copy, Debug, Default, PartialEq, Eq)]
pub struct Held {
    pub entry: Entry,
    pub utxo: u8,
    pub expected: u8,
}

impl Held {
    // Whether it is unspent, or expected, in the present state.
    pub fn is_unspent(&self) -> bool
        ensures { result ≡ marked 0 self.now.utxo }
    {
        self.utxo % 2 == 1
    }

    pub fn is_expected(&self) -> bool
        ensures { result ≡ marked 0 self.now.expected }
    {
        self.expected % 2 == 1
    }
}

// A payment with the held states in whose pending sets it stands.
#[derive(Clone, Copy, Debug, Default, PartialEq, Eq)]
pub struct Payment {
    pub transaction: Transaction,
    pub pending: u8,
}

impl Payment {
    // Whether it is pending in the present state.
    pub fn is_pending(&self) -> bool
        ensures { result ≡ marked 0 self.now.pending }
    {
        self.pending % 2 == 1
    }
}

// The first `owns` own addresses, the first `used` entries by reference, the first `paying` payments by number, and how
// many states lie below the present one. The other places are zero. Arrays with counts, as the definition `good` names them:
// a wallet is damaged by each of them alone. The slices below are what code reads.
#[derive(Clone, Copy, Debug, PartialEq, Eq)]
pub struct Pool {
    pub own: [u32; MOST_OWN],
    pub owns: usize,
    pub below: usize,
    pub entries: [Held; MOST_REFERENCES],
    pub used: usize,
    pub payments: [Payment; MOST_PAYMENTS],
    pub paying: usize,
}

// What its places hold. A count past the last place reads as all places.
impl Pool {
    pub fn own(&self) -> &[u32]
        ensures own { result.now ≡ take self.now.owns self.now.own }
        ensures most { length result.now ≤ most_own }
    {
        &self.own[..self.owns.min(MOST_OWN)]
    }

    pub fn entries(&self) -> &[Held]
        ensures entries { result.now ≡ entries_of self.now }
        ensures most { length result.now ≤ most_references }
    {
        &self.entries[..self.used.min(MOST_REFERENCES)]
    }

    pub fn payments(&self) -> &[Payment]
        ensures payments { result.now ≡ payments_of self.now }
        ensures most { length result.now ≤ most_payments }
    {
        &self.payments[..self.paying.min(MOST_PAYMENTS)]
    }
}
