// The pool after a step, and how far the available balance moved.
ghost use Rattle.std.specs.Prelude.{cond, ◌≡◌, ◌+◌, ◌-◌, ◌≤◌, Some, None, min, T, leb, ltb, pos, ◌-ℤ◌, length};
ghost use Rattle.chain.specs.View.{view_block};
ghost use Rattle.pool.specs.BlockEntries.{entries_booked};
ghost use Rattle.pool.specs.Book.{book_block, book_payment, book_rollback};
ghost use Rattle.pool.specs.Good.{good};
ghost use Rattle.pool.specs.View.{view};
ghost use Rattle.rules.specs.Balances.{available_balance};
ghost use Rattle.rules.specs.Sizes.{most_own, most_payments, most_references, most_states};
ghost use Rattle.sets.specs.Fill.{filled};
ghost use Rattle.wallet.specs.Opened.{empty_pool};

use chain::{Block, Transaction};
use fixed::Filled;
use pool::{Held, Payment, Pool};
use rules::{MOST_OWN, MOST_PAYMENTS, MOST_REFERENCES, MOST_STATES};

// An own list as an array, zeros behind it.
fn own_array(own: &[u32]) -> [u32; MOST_OWN]
    requires { length own.now ≤ most_own }
    ensures { result ≡ filled most_own 0 own.now }
{
    let mut list = Filled::none(0);
    list.extend(own);
    list.items
}

// The pool of an opened wallet.
pub(crate) fn opened(own: &[u32]) -> Pool
    requires { length own.now ≤ most_own }
    ensures { result ≡ empty_pool own.now }
{
    Pool {
        own: own_array(own),
        owns: own.len(),
        below: 0,
        entries: [Held::default(); MOST_REFERENCES],
        used: 0,
        payments: [Payment::default(); MOST_PAYMENTS],
        paying: 0,
    }
}

// One state more below, eight held at most.
fn more_below(below: usize) -> usize
    ensures { result ≡ min (most_states - 1) (below + 1) }
{
    below.min(MOST_STATES - 2) + 1
}

// The pool after a block that the tests have let through; none where it has no room.
pub(crate) fn after_block(w: Pool, b: Block) -> Option<Pool>
    requires { T (good w) }
    ensures { result ≡ cond (leb (length (entries_booked w (view_block b))) most_references) (Some (book_block w (view_block b))) None }
{
    let gone = flat::spent_of(b);
    let made = flat::own_of(flat::made_of(b), w.own());
    let merged = booking::entries_after_block(&w, made, gone);
    if MOST_REFERENCES < merged.count {
        return None;
    }
    let kept = booking::cut(merged);
    let paying = booking::payments_after_block(&w, gone);
    let entries = kept.items;
    let payments = paying.items;
    Some(Pool {
        below: more_below(w.below),
        entries,
        used: kept.count,
        payments,
        paying: paying.count,
        ..w
    })
}

// The pool after a payment that the tests have let through.
pub(crate) fn after_payment(w: Pool, t: Transaction) -> Pool
    requires { T (good w) × T (ltb w.paying most_payments) }
    ensures { result ≡ book_payment w t }
{
    let paying = booking::payments_after_payment(&w, t);
    let payments = paying.items;
    Pool {
        payments,
        paying: paying.count,
        ..w
    }
}

// The pool after a rollback that the tests have let through.
pub(crate) fn after_rollback(w: Pool) -> Pool
    requires { T (good w) × T (ltb 0 w.below) }
    ensures { result ≡ book_rollback w }
{
    let kept = booking::entries_after_rollback(&w);
    let paying = booking::payments_after_rollback(&w);
    let entries = kept.items;
    let payments = paying.items;
    Pool {
        below: w.below - 1,
        entries,
        used: kept.count,
        payments,
        paying: paying.count,
        ..w
    }
}

// The available balance after less before, of two sound pools.
pub(crate) fn movement(before: Pool, after: Pool) -> i64
    requires { T (good before) × T (good after) }
    ensures { result ≡ pos (available_balance (view after).present) -ℤ pos (available_balance (view before).present) }
{
    let old = balance::worth_of(balance::available_of(before));
    let new = balance::worth_of(balance::available_of(after));
    (new as i64) - (old as i64)
}
