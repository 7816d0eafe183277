// Tests that the refusals are made of, asked of the pool.
ghost use Rattle.std.specs.Prelude.{not, ◌||◌, ◌≡◌, ◌<◌, ◌^◌, map, sum_by};
ghost use Rattle.balance.specs.Worth.{worth_within};
ghost use Rattle.chain.specs.View.{same_struct};
ghost use Rattle.flat.specs.Flat.{made_in};
ghost use Rattle.rules.specs.Chain.{same_number, same_reference};
ghost use Rattle.sets.specs.Sets.{all, any, has, keep};
ghost use Rattle.wallet.specs.Answers.{number_used, payments_agree};

use chain::{Block, Transaction};
use flat::Made;
use pool::{Held, Payment, Pool};
use rules::{Number, Output, Reference};

// Whether a payment has this number. With the next one, a line each: one over a closure that reads the number would be no shorter.
fn payments_have(payments: &[Payment], number: Number) -> bool
    ensures { result ≡ any (λ p. same_number number p.transaction.number) payments.now }
{
    payments
        .iter()
        .any(|p| chain::same_number(number, p.transaction.number))
}

// Whether an entry's reference has this number.
fn entries_have(entries: &[Held], number: Number) -> bool
    ensures { result ≡ any (λ h. same_number number h.entry.reference.number) entries.now }
{
    entries
        .iter()
        .any(|h| chain::same_number(number, h.entry.reference.number))
}

// Whether either has.
pub(crate) fn number_used(w: &Pool, number: Number) -> bool
    ensures { result ≡ number_used w.now number }
{
    payments_have(w.payments(), number) || entries_have(w.entries(), number)
}

// Whether a reference is among some.
fn is_among(r: &Reference, refs: &[Reference]) -> bool
    ensures { result ≡ has same_reference r.now refs.now }
{
    refs.iter().any(|x| chain::same_reference(*r, *x))
}

// Whether each of some references is among others.
fn each_among(these: &[Reference], those: &[Reference]) -> bool
    ensures { result ≡ all (λ r. has same_reference r those.now) these.now }
{
    these.iter().all(|r| is_among(r, those))
}

// Whether every input stands in a list of entries.
pub(crate) fn all_among(inputs: &[Reference], list: Made) -> bool
    ensures { result ≡ all (λ i. has same_reference i (map (λ e. e.reference) (made_in list))) inputs.now }
{
    each_among(inputs, flat::made_refs(list).as_slice())
}

// Whether one was found.
fn any_found(found: &[bool]) -> bool
    ensures { result ≡ any (λ f. f) found.now }
{
    found.iter().any(|f| *f)
}

// Whether an entry of a list stands in another.
pub(crate) fn any_among(these: Made, list: Made) -> bool
    ensures { result ≡ any (λ r. has same_reference r (map (λ e. e.reference) (made_in list))) (map (λ e. e.reference) (made_in these)) }
{
    any_found(flat::found(flat::made_refs(these), flat::made_refs(list)).as_slice())
}

// The lovelace of the entries of a list that some inputs take.
pub(crate) fn worth_taken(list: Made, inputs: &[Reference]) -> u64
    ensures { result ≡ worth_within (keep (λ e. has same_reference e.reference inputs.now) (made_in list)) }
{
    let mut taken = Made::none(flat::zero_entry());
    for entry in list.as_slice() {
        if is_among(&entry.reference, inputs) {
            taken.push(*entry);
        }
    }
    balance::worth_of(taken)
}

// The lovelace of some outputs. The sums of entries and of inputs are such chains too; a shared one would take the closure
// that reads the amount, and be no shorter.
pub(crate) fn paid_out(outputs: &[Output]) -> u64
    requires { sum_by (λ o. o.amount) outputs.now < 2 ^ 64 }
    ensures { result ≡ sum_by (λ o. o.amount) outputs.now }
{
    outputs.iter().map(|o| o.amount).sum()
}

// Whether a transaction agrees with a payment: not one number with two contents.
fn agrees(t: &Transaction, payment: &Payment) -> bool
    ensures { result ≡ (not (same_number t.now.number payment.now.transaction.number) || same_struct t.now payment.now.transaction) }
{
    !chain::same_number(t.number, payment.transaction.number)
        || chain::same_transaction(*t, payment.transaction)
}

// Whether a transaction agrees with each payment.
fn agrees_with(t: &Transaction, payments: &[Payment]) -> bool
    ensures { result ≡ all (λ p. not (same_number t.now.number p.transaction.number) || same_struct t.now p.transaction) payments.now }
{
    payments.iter().all(|p| agrees(t, p))
}

// Whether each transaction of a block agrees with each payment.
pub(crate) fn payments_agree(w: &Pool, b: &Block) -> bool
    ensures { result ≡ payments_agree w.now b.now }
{
    let payments = w.payments();
    b.transactions().iter().all(|t| agrees_with(t, payments))
}
