// The brings of the minimum's tables: of each expected entry, which pending payments bring it or make it.
ghost use Rattle.std.specs.Prelude.{Bool, map, ◌≡◌, ◌+◌, ◌*◌, ◌^◌, ◌≤◌, ◌<◌, length};
ghost use Rattle.fixed.specs.Filled.{filled_of};
ghost use Rattle.flat.specs.Flat.{made_in};
ghost use Rattle.minimum.specs.Bringing.{bring_from, is_maker, own_index, takes_hard, takes_soft};
ghost use Rattle.minimum.specs.Inputs.{Fit, no_bring, state_of, takings_of};
ghost use Rattle.rules.specs.Sizes.{most_payments, most_references};
ghost use Rattle.sets.specs.Sets.{any};
ghost use Rattle.sets.specs.Words.{bit, word_of};
ghost use Rattle.tables.specs.Tables.{bring_of};

use crate::Sets;
use crate::takings::Taking;
use chain::Transaction;
use fixed::Filled;
use rules::{Entry, MOST_REFERENCES, Number, Output, Reference};
use tables::Bring;

pub(crate) type Brings = Filled<Bring, MOST_REFERENCES>;

// What an unused place holds.
pub(crate) fn no_bring() -> Bring
    ensures { result ≡ no_bring }
{
    Bring::default()
}

// A word with one mark more under it.
fn pushed(word: u32, mark: bool) -> u32
    requires { word < 2 ^ most_payments }
    ensures { result ≡ bit mark + 2 * word }
{
    u32::from(mark) + 2 * word
}

// The word of the payments of which a test holds: the first has the lowest mark.
pub(crate) fn word_of<T, F: Fn(&T) -> bool>(payments: &[T], test: F) -> u32
    requires few { length payments.now ≤ most_payments }
    requires callable { F.IsAlwaysCallable test }
    ensures { (p : T → Bool) → ((x : _) (b : Bool) → F.post test x b → b ≡ p x.now) → result ≡ word_of p payments.now }
{
    let mut word = 0;
    for payment in payments.iter().rev() {
        word = pushed(word, test(payment));
    }
    word
}

// Whether a payment brings a number's entries for certain: by an input outside the UTxO that no pending payment makes.
fn brings_hard(number: Number, taking: &Taking) -> bool
    ensures { result ≡ takes_hard number taking.now }
{
    taking.inputs().iter().any(|i| {
        let same = chain::same_number(i.reference.number, number);
        same && !i.utxo && !i.made
    })
}

// Whether it does unless the number's payment is chosen: by an input outside the UTxO that a pending payment makes.
fn brings_soft(number: Number, taking: &Taking) -> bool
    ensures { result ≡ takes_soft number taking.now }
{
    taking.inputs().iter().any(|i| {
        let same = chain::same_number(i.reference.number, number);
        same && !i.utxo && i.made
    })
}

// Whether an own one of some outputs has the reference's index.
fn has_own(own: &[u32], reference: Reference, outputs: &[Output]) -> bool
    ensures { result ≡ any (own_index own.now reference) outputs.now }
{
    outputs.iter().any(|o| reference.index == o.index && flat::is_own(own, o.address))
}

// Whether a payment has the reference among its own outputs. Its number is asked first.
fn makes_own(own: &[u32], reference: Reference, t: &Transaction) -> bool
    ensures { result ≡ is_maker own.now reference t.now }
{
    chain::same_number(reference.number, t.number) && has_own(own, reference, t.outputs())
}

// The bring of an expected entry.
#[tactic(auto, unfolding(crate::specs::Bringing::bring_from))]
fn bring_of(own: &[u32], entry: &Entry, payments: &[Transaction], taken: &[Taking]) -> Bring
    requires { (length payments.now ≤ most_payments) × (length taken.now ≤ most_payments) }
    ensures { result ≡ bring_from own.now payments.now taken.now entry.now }
{
    let number = entry.reference.number;
    Bring {
        amount: entry.amount,
        hard: word_of(taken, |p| brings_hard(number, p)),
        soft: word_of(taken, |p| brings_soft(number, p)),
        owner: word_of(payments, |t| chain::same_number(t.number, number)),
        maker: word_of(payments, |t| makes_own(own, entry.reference, t)),
    }
}

// The brings of all expected entries. The UTxO is told by the takings already.
pub(crate) fn brings_of(sets: &Sets, taken: &[Taking]) -> Brings
    requires fit { Fit sets.now.utxo sets.now.expected sets.now.pending }
    requires taken_value { taken.now ≡ takings_of sets.now.own.now (state_of sets.now.utxo sets.now.expected sets.now.pending) }
    ensures { result ≡ filled_of most_references no_bring (map (bring_of sets.now.own.now (state_of sets.now.utxo sets.now.expected sets.now.pending)) (made_in sets.now.expected)) }
{
    let mut brings = Brings::none(no_bring());
    for entry in sets.expected.as_slice() {
        brings.push(bring_of(sets.own, entry, sets.pending.transactions(), taken));
    }
    brings
}
