// Blocks and payments laid flat: what they spend and make, and payments as a block.
ghost use Rattle.std.specs.Prelude.{map, ◌≡◌, ◌≤◌, length};
ghost use Rattle.chain.specs.View.{view_block, view_transaction};
ghost use Rattle.fixed.specs.Filled.{with_items};
ghost use Rattle.flat.specs.Flat.{as_block, block_of, made_of, refs_of};
ghost use Rattle.pool.specs.Marks.{marked};
ghost use Rattle.pool.specs.View.{payments_of};
ghost use Rattle.rules.specs.Chain.{entry_of, made, makes, spent};
ghost use Rattle.rules.specs.Sizes.{most_inputs, most_outputs};
ghost use Rattle.sets.specs.Sets.{gather, keep};

use crate::{Made, Refs, zero_entry};
use chain::{Block, Transaction};
use fixed::Filled;
use pool::Pool;
use rules::{Entry, MOST_TRANSACTIONS, Number, Output, Reference};

// An output of a transaction, as an entry.
fn entry_of(number: Number, output: Output) -> Entry
    ensures { result ≡ entry_of number output }
{
    Entry {
        reference: Reference {
            number,
            index: output.index,
        },
        address: output.address,
        amount: output.amount,
    }
}

// All references that a block spends, one transaction's inputs after another's.
pub fn spent_of(b: Block) -> Refs
    ensures { result ≡ refs_of (spent (view_block b)) }
{
    let mut refs = Refs::none(chain::zero_reference());
    for transaction in b.transactions() {
        refs.extend(transaction.inputs());
    }
    refs
}

// A transaction's outputs behind what is there already.
fn push_made(entries: &mut Made, transaction: &Transaction)
    ensures entries { entries.new ≡ with_items entries.old (makes (view_transaction transaction.now)) }
    ensures most { length (makes (view_transaction transaction.now)) ≤ most_outputs }
{
    for output in transaction.outputs() {
        entries.push(entry_of(transaction.number, *output));
    }
}

// All that a block makes, own or not, one transaction's outputs after another's.
pub fn made_of(b: Block) -> Made
    ensures { result ≡ made_of (made (view_block b)) }
{
    let mut entries = Made::none(zero_entry());
    for transaction in b.transactions() {
        push_made(&mut entries, transaction);
    }
    entries
}

// Some transactions as a block.
fn as_block(list: Filled<Transaction, MOST_TRANSACTIONS>) -> Block
    ensures { result ≡ as_block list }
{
    let transactions = list.items;
    Block {
        transactions,
        count: list.count,
    }
}

// The transactions of all payments, as a block.
pub fn payments_block(w: &Pool) -> Block
    ensures { result ≡ block_of (map (λ p. p.transaction) (payments_of w.now)) }
{
    let mut list = Filled::none(chain::zero_transaction());
    for payment in w.payments() {
        list.push(payment.transaction);
    }
    as_block(list)
}

// Every place of a transaction's inputs, used or not.
fn push_slots(refs: &mut Refs, transaction: &Transaction)
    ensures refs { refs.new ≡ with_items refs.old transaction.now.inputs }
    ensures most { length transaction.now.inputs ≤ most_inputs }
{
    refs.extend(&transaction.inputs);
}

// The inputs of all payments, every place of each, used or not.
pub fn slots_of(w: &Pool) -> Refs
    ensures { result ≡ refs_of (gather (λ p. p.transaction.inputs) (payments_of w.now)) }
{
    let mut slots = Refs::none(chain::zero_reference());
    for payment in w.payments() {
        push_slots(&mut slots, &payment.transaction);
    }
    slots
}

// The transactions of the payments that are pending in the present state, as a block. With the one above, two loops of four
// lines: one over a closure would be no shorter.
pub fn pending_block(w: &Pool) -> Block
    ensures { result ≡ block_of (map (λ p. p.transaction) (keep (λ p. marked 0 p.pending) (payments_of w.now))) }
{
    let mut pending = Filled::none(chain::zero_transaction());
    for payment in w.payments() {
        if payment.is_pending() {
            pending.push(payment.transaction);
        }
    }
    as_block(pending)
}
