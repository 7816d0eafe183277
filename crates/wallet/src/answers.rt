// Whether a payment, a block or a rollback is refused: one test after another, in the paper's order.
ghost use Rattle.std.specs.Prelude.{◌≡◌};
ghost use Rattle.wallet.specs.Answers.{back_answer, block_answer, pay_answer};
ghost use Rattle.wallet.specs.Refusals.{answer_in};

use crate::refusal::Refusal;
use crate::tests::{all_among, any_among, number_used, paid_out, payments_agree, worth_taken};
use chain::{Block, Transaction};
use pool::Pool;
use rules::MOST_PAYMENTS;

// A payment's: not sound, not shaped, number taken, an input missing, pays too much, no room.
pub(crate) fn pay_answer(w: Pool, t: Transaction) -> Result<(), Refusal>
    ensures { answer_in result ≡ pay_answer w t }
{
    if !audit::good_pool(w) {
        return Err(Refusal::NotSound);
    }
    if !chain::good_transaction(t) {
        return Err(Refusal::NotShaped);
    }
    if number_used(&w, t.number) {
        return Err(Refusal::NumberTaken);
    }
    let free = balance::available_of(w);
    if !all_among(t.inputs(), free) {
        return Err(Refusal::InputMissing);
    }
    if worth_taken(free, t.inputs()) < paid_out(t.outputs()) {
        return Err(Refusal::PaysTooMuch);
    }
    if MOST_PAYMENTS <= w.paying {
        return Err(Refusal::NoRoom);
    }
    Ok(())
}

// A block's, before its room is known: not sound, not shaped, an output unspent already, or one that contradicts.
pub(crate) fn block_answer(w: Pool, b: Block) -> Result<(), Refusal>
    ensures { answer_in result ≡ block_answer w b }
{
    if !audit::good_pool(w) {
        return Err(Refusal::NotSound);
    }
    if !chain::good_block(b) {
        return Err(Refusal::NotShaped);
    }
    let made = flat::made_of(b);
    if any_among(made, balance::utxo_of(w)) {
        return Err(Refusal::AlreadyUnspent);
    }
    // `|` asks both, so that one fact comes of it
    if !audit::outputs_agree(made, &w) | !payments_agree(&w, &b) {
        return Err(Refusal::Contradicts);
    }
    Ok(())
}

// A rollback's: not sound, or no state below.
pub(crate) fn back_answer(w: Pool) -> Result<(), Refusal>
    ensures { answer_in result ≡ back_answer w }
{
    if !audit::good_pool(w) {
        return Err(Refusal::NotSound);
    }
    if w.below == 0 {
        return Err(Refusal::NothingBelow);
    }
    Ok(())
}
