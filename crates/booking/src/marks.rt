// Mark words, and what a step does to the marks of one entry or one payment.
ghost use Rattle.std.specs.Prelude.{not, ◌&&◌, ◌||◌, ◌≡◌};
ghost use Rattle.pool.specs.Book.{held_after_rollback, held_marked, payment_after_rollback, payment_marked};
ghost use Rattle.pool.specs.Marks.{marked, raised, lowered};

use pool::{Held, Payment};

// A mark word with one state more, or one less, and a new present mark.
fn raise(word: u8, present: bool) -> u8
    ensures { result ≡ raised word present }
{
    word % 128 * 2 + u8::from(present)
}

fn lower(word: u8, present: bool) -> u8
    ensures { result ≡ lowered word present }
{
    word / 4 * 2 + u8::from(present)
}

// Whether the mark below the present one stands in a word.
fn mark_below(word: u8) -> bool
    ensures { result ≡ marked 1 word }
{
    word / 2 % 2 == 1
}

// Whether a place has at least one mark.
pub(crate) fn held_marked(held: Held) -> bool
    ensures { result ≡ held_marked held }
{
    held.utxo != 0 || held.expected != 0
}

pub(crate) fn payment_marked(payment: Payment) -> bool
    ensures { result ≡ payment_marked payment }
{
    payment.pending != 0
}

// An entry after a block, which may make it as an own output and may spend it.
pub(crate) fn held_after(held: Held, is_made: bool, is_gone: bool) -> Held
    ensures { (result.entry ≡ held.entry) × (result.utxo ≡ raised held.utxo ((marked 0 held.utxo || is_made) && not is_gone)) × (result.expected ≡ raised held.expected (marked 0 held.expected && not is_made)) }
{
    Held {
        utxo: raise(held.utxo, (held.is_unspent() || is_made) && !is_gone),
        expected: raise(held.expected, held.is_expected() && !is_made),
        ..held
    }
}

// A payment after a block, which may spend one of its inputs.
pub(crate) fn payment_after(payment: Payment, is_gone: bool) -> Payment
    ensures { (result.transaction ≡ payment.transaction) × (result.pending ≡ raised payment.pending (marked 0 payment.pending && not is_gone)) }
{
    Payment {
        pending: raise(payment.pending, payment.is_pending() && !is_gone),
        ..payment
    }
}

// An entry after a rollback.
pub(crate) fn held_back(held: Held) -> Held
    ensures { result ≡ held_after_rollback held }
{
    let expected = held.is_expected() || mark_below(held.expected) || held.is_unspent();
    Held {
        utxo: held.utxo / 2,
        expected: lower(held.expected, expected && !mark_below(held.utxo)),
        ..held
    }
}

// A payment after a rollback: pending where it was, in the state that went or in the one below.
pub(crate) fn payment_back(payment: Payment) -> Payment
    ensures { result ≡ payment_after_rollback payment }
{
    let pending = payment.is_pending() || mark_below(payment.pending);
    Payment {
        pending: lower(payment.pending, pending),
        ..payment
    }
}
