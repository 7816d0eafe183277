// What every step and every query answers to a wallet.
use alike::same_wallet;
use chain::{Block, Transaction};
use rules::Number;
use wallet::{Step, Wallet};

// Stands in the place of an answer that refuses and does not give back the very wallet. A number, as the answers beside it
// are: the line of a damage holds twelve.
const NOT_THE_SAME: u32 = 99;

// A well shaped transaction: one input, no output.
fn some_payment() -> Transaction {
    let mut payment = chain::zero_transaction();
    payment.number = Number { serial: 2 };
    payment.inputs[0].number = Number { serial: 1 };
    payment.takes = 1;
    payment
}

fn of_step(before: Wallet, came: Step) -> u32 {
    if came.answer != 0 && !same_wallet(before, came.wallet) {
        return NOT_THE_SAME;
    }
    came.answer
}

// Block, payment and rollback; available, total, minimum, all three and held; UTxO, expected, available and pending.
pub(crate) fn answers(w: Wallet) -> [u32; 12] {
    [
        of_step(w, w.block(Block::default())),
        of_step(w, w.pay(some_payment())),
        of_step(w, w.roll_back()),
        w.available().answer,
        w.total().answer,
        minimum::minimum(w).answer,
        minimum::balances(w).answer,
        w.held().answer,
        w.utxo_list().answer,
        w.expected_list().answer,
        w.available_list().answer,
        w.pending_list().answer,
    ]
}
