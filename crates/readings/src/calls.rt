// A wallet struct handed to every step and every query, and how they answer.
use crate::build::{block_below, transaction_in};
use crate::line::Line;
use alike::{no_entries, no_payments, same_wallet};
use minimum::{Least, ThreeBalances};
use wallet::{Amount, Listed, Pending, Refusal, Step, Wallet};

// What a call answered, and whether it had nothing else to say: no movement and the same wallet, no amount, no list.
#[derive(Clone, Copy)]
pub(crate) struct Call {
    answer: u32,
    still: bool,
}

impl From<Amount> for Call {
    fn from(came: Amount) -> Call {
        Call {
            answer: came.answer,
            still: came.amount == 0,
        }
    }
}

impl From<Listed> for Call {
    fn from(came: Listed) -> Call {
        Call {
            answer: came.answer,
            still: no_entries(came.list),
        }
    }
}

impl From<Pending> for Call {
    fn from(came: Pending) -> Call {
        Call {
            answer: came.answer,
            still: no_payments(came.list),
        }
    }
}

impl From<Least> for Call {
    fn from(came: Least) -> Call {
        Call {
            answer: came.answer,
            still: came.amount == 0 && came.payments == 0,
        }
    }
}

impl From<ThreeBalances> for Call {
    fn from(came: ThreeBalances) -> Call {
        let nothing = came.available == 0
            && came.total == 0
            && came.minimum == 0
            && came.payments == 0;
        Call {
            answer: came.answer,
            still: nothing,
        }
    }
}

fn of_step(before: Wallet, came: Step) -> Call {
    Call {
        answer: came.answer,
        still: came.movement == 0 && same_wallet(before, came.wallet),
    }
}

// How many calls answered 9, not sound, and how many had nothing else to say.
pub(crate) fn nines(calls: &[Call]) -> usize {
    calls
        .iter()
        .filter(|call| call.answer == Refusal::NotSound.number())
        .count()
}

pub(crate) fn still(calls: &[Call]) -> usize {
    calls.iter().filter(|call| call.still).count()
}

// The three steps, with a block and a payment that the case F takes after its row 6, and the nine queries.
pub(crate) fn calls(w: Wallet) -> [Call; 12] {
    let block = block_below(Line(b"block\n  900: 1.0 -> 0=10:5"));
    let payment = transaction_in(Line(b"901: 100.1 -> 0=10:40"), 0);
    [
        of_step(w, w.block(block)),
        of_step(w, w.pay(payment)),
        of_step(w, w.roll_back()),
        w.available().into(),
        w.total().into(),
        w.held().into(),
        w.utxo_list().into(),
        w.expected_list().into(),
        w.available_list().into(),
        w.pending_list().into(),
        minimum::minimum(w).into(),
        minimum::balances(w).into(),
    ]
}
