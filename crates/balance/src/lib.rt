// The present state's sets and their worth, read off the pool. Every function takes any struct.
#![tactic(auto)]

ghost use Rattle.std.specs.Prelude.{Bool, ◌≡◌, ◌<◌, ◌^◌, leb, map, sum_by, take};
ghost use Rattle.std.specs.Fn.{AnyResult};
ghost use Rattle.balance.specs.Worth.{worth_within};
ghost use Rattle.flat.specs.Flat.{made_in, made_of, refs_in, refs_of};
ghost use Rattle.pool.specs.BalanceLaws.{is_change};
ghost use Rattle.pool.specs.View.{entries_of, expected_at, payments_of, pending_at, utxo_at, view};
ghost use Rattle.rules.specs.Balances.{available};
ghost use Rattle.rules.specs.Chain.{made, spent};
ghost use Rattle.rules.specs.Sizes.{largest_amount};
ghost use Rattle.rules.specs.States.{own_made, without_references};
ghost use Rattle.sets.specs.Sets.{all, keep};

use flat::{Made, Refs};
use pool::{Held, Pool};
use rules::{Entry, LARGEST_AMOUNT};

// The entries of the places that pass a test.
fn entries_where<F: Fn(&Held) -> bool>(w: &Pool, keeps: F) -> Made
    requires { F.IsAlwaysCallable keeps }
    ensures { (p : Held → Bool) → ((h : _) → AnyResult F.Fn keeps (h, tt) (λ b. b ≡ p h.now)) → result ≡ made_of (map (λ h. h.entry) (keep p (entries_of w.now))) }
{
    let mut kept = Made::none(flat::zero_entry());
    for held in w.entries() {
        if keeps(held) {
            kept.push(held.entry);
        }
    }
    kept
}

// The unspent outputs.
pub fn utxo_of(w: Pool) -> Made
    ensures { result ≡ made_of (utxo_at 0 (entries_of w)) }
{
    entries_where(&w, |held| held.is_unspent())
}

// The expected outputs.
pub fn expected_of(w: Pool) -> Made
    ensures { result ≡ made_of (expected_at 0 (entries_of w)) }
{
    entries_where(&w, |held| held.is_expected())
}

// The entries of a list whose references do not stand in another.
fn without(made: Made, refs: Refs) -> Made
    ensures { result ≡ made_of (without_references (refs_in refs) (made_in made)) }
{
    let found = flat::found(flat::made_refs(made), refs);
    let mut kept = Made::none(flat::zero_entry());
    for (entry, is_found) in made.as_slice().iter().zip(found.as_slice()) {
        if !*is_found {
            kept.push(*entry);
        }
    }
    kept
}

// The unspent outputs that are not among what is taken.
fn untaken(w: &Pool, taken: Refs) -> Made
    ensures { result ≡ made_of (without_references (refs_in taken) (utxo_at 0 (entries_of w.now))) }
{
    without(entries_where(w, |held| held.is_unspent()), taken)
}

// The unspent outputs that no pending payment takes.
pub fn available_of(w: Pool) -> Made
    ensures { result ≡ made_of (available (view w).present) }
{
    untaken(&w, flat::spent_of(flat::pending_block(&w)))
}

// The change: own outputs of pending payments that no pending payment takes, and that are not available already.
pub fn change_of(w: Pool) -> Made
    ensures { result ≡ made_of (keep (is_change (take w.owns w.own) (entries_of w) (payments_of w)) (made (pending_at 0 (payments_of w)))) }
{
    let pending = flat::pending_block(&w);
    let taken = flat::spent_of(pending);
    let own = flat::own_of(flat::made_of(pending), w.own());
    let left = without(own, taken);
    let free = flat::made_refs(untaken(&w, taken));
    without(left, free)
}

// Whether every amount is within the limit.
fn is_within(entries: &[Entry]) -> bool
    ensures { result ≡ all (λ e. leb e.amount largest_amount) entries.now }
{
    entries.iter().all(|e| e.amount <= LARGEST_AMOUNT)
}

// The sum of some amounts.
fn sum_of(entries: &[Entry]) -> u64
    requires { sum_by (λ e. e.amount) entries.now < 2 ^ 64 }
    ensures { result ≡ sum_by (λ e. e.amount) entries.now }
{
    entries.iter().map(|e| e.amount).sum()
}

// The lovelace of a list of entries; 0 where an amount is over the limit, which no sound wallet holds.
pub fn worth_of(list: Made) -> u64
    ensures { result ≡ worth_within (made_in list) }
{
    let entries = list.as_slice();
    if is_within(entries) {
        sum_of(entries)
    } else {
        0
    }
}
