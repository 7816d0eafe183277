// Whether a wallet struct is sound: laid out as the pool asks, and sound by the rules.
#![tactic(auto)]

ghost use Rattle.std.specs.Prelude.{◌≡◌, suc, ◌+◌, ◌^◌, ◌≤◌, ◌&&◌, eqb};
ghost use Rattle.std.specs.List.{slice_get};
ghost use Rattle.audit.specs.Agreement.{agrees_found};
ghost use Rattle.audit.specs.Audit.{agrees_first, entries_part, held_test, payment_test, payments_part};
ghost use Rattle.flat.specs.Flat.{made_in};
ghost use Rattle.pool.specs.Good.{before_held, before_payment, good, no_held, no_payment};
ghost use Rattle.pool.specs.View.{entries_of};
ghost use Rattle.rules.specs.Chain.{same_value, shaped_own};
ghost use Rattle.rules.specs.Sizes.{most_states};
ghost use Rattle.sets.specs.Sets.{all, ascending};

use flat::Made;
use pool::{Held, Payment, Pool};
use rules::{Entry, LARGEST_AMOUNT, MOST_OWN, MOST_PAYMENTS, MOST_REFERENCES, MOST_STATES};

// 2 to the number of held states: no mark word reaches it.
fn limit_of(below: usize) -> usize
    requires { below + 1 ≤ most_states }
    ensures { result ≡ 2 ^ suc below }
{
    1 << (below + 1)
}

// Whether a place of the pool holds no entry.
fn no_held(held: &Held) -> bool
    ensures { result ≡ no_held held.now }
{
    chain::no_reference(held.entry.reference)
        && held.entry.address == 0
        && held.entry.amount == 0
        && held.utxo == 0
        && held.expected == 0
}

// Whether an entry of the pool is good.
fn held_good(held: &Held, limit: usize, own: &[u32]) -> bool
    ensures { result ≡ held_test limit own.now held.now }
{
    (held.utxo as usize) < limit
        && (held.expected as usize) < limit
        && !(held.utxo == 0 && held.expected == 0)
        && held.entry.amount <= LARGEST_AMOUNT
        && flat::is_own(own, held.entry.address)
        && held.utxo & held.expected == 0
}

// Whether a place of the pool holds no payment; `chain::no_transaction` has the laws of the arrays in it.
fn no_payment(payment: &Payment) -> bool
    ensures { result ≡ no_payment payment.now }
{
    chain::no_transaction(payment.transaction) && payment.pending == 0
}

// Whether a payment of the pool is good.
fn payment_good(payment: &Payment, limit: usize) -> bool
    ensures { result ≡ payment_test limit payment.now }
{
    (payment.pending as usize) < limit
        && payment.pending != 0
        && chain::good_transaction(payment.transaction)
}

// The own list: shaped, and nothing behind it.
fn own_good(own: &[u32], unused: &[u32]) -> bool
    ensures { result ≡ (shaped_own own.now && all (λ a. eqb a 0) unused.now) }
{
    chain::good_own(own) && unused.iter().all(|a| *a == 0)
}

// The entries ascend by reference; the payments below by number.
fn entries_ascend(entries: &[Held]) -> bool
    ensures { result ≡ ascending before_held entries.now }
{
    entries.is_sorted_by(|a, b| chain::before_reference(a.entry.reference, b.entry.reference))
}

// The entries: nothing behind them, ascending by reference, and good.
fn entries_good(entries: &[Held], unused: &[Held], limit: usize, own: &[u32]) -> bool
    ensures { result ≡ (all no_held unused.now && ascending before_held entries.now && all (held_test limit own.now) entries.now) }
{
    unused.iter().all(|h| no_held(h))
        && entries_ascend(entries)
        && entries.iter().all(|h| held_good(h, limit, own))
}

// The payments ascend by number.
fn payments_ascend(payments: &[Payment]) -> bool
    ensures { result ≡ ascending before_payment payments.now }
{
    payments.is_sorted_by(|a, b| chain::before_number(a.transaction.number, b.transaction.number))
}

// The payments: nothing behind them, ascending by number, and good. All three tests differ from those of the entries.
fn payments_good(payments: &[Payment], unused: &[Payment], limit: usize) -> bool
    ensures { result ≡ (all no_payment unused.now && ascending before_payment payments.now && all (payment_test limit) payments.now) }
{
    unused.iter().all(|p| no_payment(p))
        && payments_ascend(payments)
        && payments.iter().all(|p| payment_good(p, limit))
}

// The own list and the entries: laid out and good.
#[tactic(auto, unfolding(crate::specs::Audit::entries_part))]
fn entries_sound(w: &Pool) -> bool
    ensures { result ≡ entries_part w.now }
{
    if MOST_OWN < w.owns || MOST_REFERENCES < w.used || MOST_STATES <= w.below {
        return false;
    }
    own_good(w.own(), &w.own[w.owns..])
        && entries_good(
            w.entries(),
            &w.entries[w.used..],
            limit_of(w.below),
            w.own(),
        )
}

// The payments: laid out and good.
#[tactic(auto, unfolding(crate::specs::Audit::payments_part))]
fn payments_sound(w: &Pool) -> bool
    ensures { result ≡ payments_part w.now }
{
    if MOST_PAYMENTS < w.paying || MOST_STATES <= w.below {
        return false;
    }
    payments_good(w.payments(), &w.payments[w.paying..], limit_of(w.below))
}

// Two entries under one reference: the same address and amount, two of an entry's three fields.
fn same_value(a: &Entry, b: &Entry) -> bool
    ensures { result ≡ same_value a.now b.now }
{
    a.address == b.address && a.amount == b.amount
}

// Whether an output agrees with the entry in a place, where there is one.
fn agrees_at(output: &Entry, held: &[Held], place: usize) -> bool
    ensures { result ≡ agrees_found output.now (slice_get held.now place) }
{
    held.get(place).is_none_or(|h| same_value(output, &h.entry))
}

// Whether each output agrees with the first entry of its reference, where the pool has one.
pub fn outputs_agree(made: Made, w: &Pool) -> bool
    ensures { result ≡ all (λ o. agrees_first o (entries_of w.now)) (made_in made) }
{
    let at = flat::sought(flat::made_refs(made), flat::held_refs(w));
    let outputs = made.as_slice().iter();
    outputs
        .zip(at.as_slice())
        .all(|(output, place)| agrees_at(output, w.entries(), *place))
}

// Whether a wallet struct is sound.
pub fn good_pool(w: Pool) -> bool
    ensures { result ≡ good w }
{
    entries_sound(&w)
        && payments_sound(&w)
        && outputs_agree(flat::made_of(flat::payments_block(&w)), &w)
}
