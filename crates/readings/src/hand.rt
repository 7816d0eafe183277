// A wallet changed by hand in one place, also to what no step would leave behind.
use crate::build::{block_below, put, reference_in, transaction_in};
use crate::line::Line;
use chain::Block;
use pool::{Held, Payment, Pool};
use rules::{Entry, MOST_PAYMENTS};
use std::array;
use wallet::Wallet;

// An entry with its marks; 0 where a number is too large.
fn held_in(line: Line) -> Held {
    let [address, amount, utxo, expected] = line.numbers::<4>(3);
    let entry = Entry {
        reference: reference_in(line, 1),
        address: u32::try_from(address).unwrap_or(0),
        amount,
    };
    Held {
        entry,
        utxo: u8::try_from(utxo).unwrap_or(0),
        expected: u8::try_from(expected).unwrap_or(0),
    }
}

// A payment with its mark.
fn payment_in(line: Line) -> Payment {
    Payment {
        transaction: transaction_in(line, 2),
        pending: u8::try_from(line.number(1)).unwrap_or(0),
    }
}

// The transactions of a list as the payments: pending now where they count.
fn listed(list: &Block) -> [Payment; MOST_PAYMENTS] {
    array::from_fn(|i| Payment {
        transaction: list.transactions[i],
        pending: (i < list.count) as u8,
    })
}

// The wallet as a line that begins with `with` changes it: a count, or
//     with address 2 12                       a place and an own address
//     with entry 0 100.0=10:60 1 0            a place, an entry, and its marks as unspent and as expected
//     with transaction 0 1 200: 100.0 ->      a place, a mark, and a payment
//     with list                               payments that are pending now: the indented lines that follow
//     with owns 3                             another count: owns, below, used or paying
pub(crate) fn by_hand(w: Wallet, line: Line) -> Wallet {
    let mut pool = w.pool;
    let n = line.number(0);
    match line.letter(5) {
        b'a' => put(&mut pool.own, n, u32::try_from(line.number(1)).unwrap_or(0)),
        b'e' => put(&mut pool.entries, n, held_in(line)),
        b't' => put(&mut pool.payments, n, payment_in(line)),
        b'l' => {
            let list = block_below(line);
            pool.payments = listed(&list);
            pool.paying = list.count;
        }
        b'o' => pool.owns = n as usize,
        b'b' => pool.below = n as usize,
        b'u' => pool.used = n as usize,
        b'p' => pool.paying = n as usize,
        _ => {}
    }
    Wallet { pool }
}
