// The recorder's core: a wallet by value, its steps and its queries. Every call takes any struct, never traps, and answers
// as the rules say.
#![tactic(auto)]

ghost use Rattle.std.specs.Prelude.{true, ◌≡◌, T, length};
ghost use Rattle.chain.specs.View as ChainView;
ghost use Rattle.chain.specs.View.{laid_out_block, view_block, view_transaction};
ghost use Rattle.pool.specs.Good.{good};
ghost use Rattle.rules.specs.Balances.{available, available_balance, total_balance};
ghost use Rattle.rules.specs.States.{states};
ghost use Rattle.rules.specs.Steps as Steps;
ghost use Rattle.wallet.specs.Contract.{Reads, Stepped, asked, is_sound, listed, pending_listed, pending_structs, refused_step, viewed};
ghost use Rattle.wallet.specs.Moved.{moved};
ghost use Rattle.wallet.specs.Refusals.{number};
ghost use Rattle.wallet.specs.StepsBooked.{booked_step};
ghost use Rattle.wallet.specs.Told.{told_amount, told_list, told_pending};

use chain::{Block, Transaction};
use flat::Made;
use pool::Pool;
use rules::MOST_STATES;

mod answers;
mod bookings;
mod queries;
mod refusal;
mod tests;

pub use crate::refusal::Refusal;

// A wallet: see the pool for how it is laid out.
#[derive(Clone, Copy, Debug, PartialEq, Eq)]
pub struct Wallet {
    pub pool: Pool,
}

// What a step hands back: the wallet, the paper's answer, and how far the available balance moved, together and by value,
// as document 01 asks; so the answer is a number, 0 or that of the refusal.
#[derive(Clone, Copy, Debug, PartialEq, Eq)]
pub struct Step {
    pub wallet: Wallet,
    pub answer: u32,
    pub movement: i64,
}

// What a query hands back: an amount or a count, or a list, with the paper's answer: a refused one gives its number and
// zeros (document 01; `asked`, `listed` and `pending_listed` name the fields).
#[derive(Clone, Copy, Debug, PartialEq, Eq)]
pub struct Amount {
    pub answer: u32,
    pub amount: u64,
}

#[derive(Clone, Copy, Debug, PartialEq, Eq)]
pub struct Listed {
    pub answer: u32,
    pub list: Made,
}

#[derive(Clone, Copy, Debug, PartialEq, Eq)]
pub struct Pending {
    pub answer: u32,
    pub list: Block,
}

impl Wallet {
    // Refused: the very wallet that came in, and movement 0.
    fn refused(self, refusal: Refusal) -> Step
        ensures { result ≡ refused_step self (number refusal) }
    {
        Step {
            wallet: self,
            answer: refusal.number(),
            movement: 0,
        }
    }

    // Taken: the pool that the step left, and how far the available balance moved.
    fn taken(self, pool: Pool) -> Step
        requires { T (good self.pool) × T (good pool) }
        ensures { result ≡ booked_step pool (moved self.pool pool) }
    {
        Step {
            wallet: Wallet { pool },
            answer: 0,
            movement: bookings::movement(self.pool, pool),
        }
    }

    // A fresh wallet with these own addresses; 1 and no own address where the list is not strictly ascending or too long.
    pub fn open(own: &[u32]) -> Step
        ensures { Reads result (Steps.opening own.now) }
    {
        if !chain::good_own(own) {
            return Step {
                wallet: Wallet {
                    pool: bookings::opened(&own[..0]),
                },
                answer: Refusal::NotShaped.number(),
                movement: 0,
            };
        }
        Step {
            wallet: Wallet {
                pool: bookings::opened(own),
            },
            answer: 0,
            movement: 0,
        }
    }

    // A block: its own outputs come in, what it spends goes out, and the state before it is kept below.
    pub fn block(self, b: Block) -> Step
        ensures { Stepped self (laid_out_block b) (Steps.block (viewed self) (view_block b)) result }
    {
        if let Err(refusal) = answers::block_answer(self.pool, b) {
            return self.refused(refusal);
        }
        match bookings::after_block(self.pool, b) {
            Some(pool) => self.taken(pool),
            None => self.refused(Refusal::NoRoom),
        }
    }

    // A payment: added to the present pending set.
    pub fn pay(self, t: Transaction) -> Step
        ensures { Stepped self (ChainView.laid_out t) (Steps.pay (viewed self) (view_transaction t)) result }
    {
        match answers::pay_answer(self.pool, t) {
            Ok(()) => self.taken(bookings::after_payment(self.pool, t)),
            Err(refusal) => self.refused(refusal),
        }
    }

    // A rollback: the state below comes back.
    pub fn roll_back(self) -> Step
        ensures { Stepped self true (Steps.roll_back (viewed self)) result }
    {
        match answers::back_answer(self.pool) {
            Ok(()) => self.taken(bookings::after_rollback(self.pool)),
            Err(refusal) => self.refused(refusal),
        }
    }

    // An amount or a count, told where the wallet is sound.
    fn amount(&self, value: u64) -> Amount
        ensures { result ≡ told_amount (is_sound self.now) value }
    {
        let (answer, amount) = queries::told(audit::good_pool(self.pool), value, || 0);
        Amount { answer, amount }
    }

    // A list of entries, told where the wallet is sound.
    fn listed(&self, value: Made) -> Listed
        ensures { result ≡ told_list (is_sound self.now) value }
    {
        let nothing = || Made::none(flat::zero_entry());
        let (answer, list) = queries::told(audit::good_pool(self.pool), value, nothing);
        Listed { answer, list }
    }

    // Payments, told where the wallet is sound.
    fn payments(&self, value: Block) -> Pending
        ensures { result ≡ told_pending (is_sound self.now) value }
    {
        let nothing = || queries::no_payment();
        let (answer, list) = queries::told(audit::good_pool(self.pool), value, nothing);
        Pending { answer, list }
    }

    // The available balance.
    pub fn available(self) -> Amount
        ensures { result ≡ asked self (available_balance (viewed self).present) }
    {
        self.amount(balance::worth_of(balance::available_of(self.pool)))
    }

    // The total balance.
    pub fn total(self) -> Amount
        ensures { result ≡ asked self (total_balance (viewed self).own (viewed self).present) }
    {
        let free = balance::worth_of(balance::available_of(self.pool));
        let change = balance::worth_of(balance::change_of(self.pool));
        self.amount(free + change)
    }

    // How many states are held.
    pub fn held(self) -> Amount
        ensures { result ≡ asked self (length (states (viewed self))) }
    {
        let below = self.pool.below.min(MOST_STATES);
        self.amount(below as u64 + 1)
    }

    // The present sets: unspent, expected and available outputs, and pending payments.
    pub fn utxo_list(self) -> Listed
        ensures { result ≡ listed self (viewed self).present.utxo }
    {
        self.listed(balance::utxo_of(self.pool))
    }

    pub fn expected_list(self) -> Listed
        ensures { result ≡ listed self (viewed self).present.expected }
    {
        self.listed(balance::expected_of(self.pool))
    }

    pub fn available_list(self) -> Listed
        ensures { result ≡ listed self (available (viewed self).present) }
    {
        self.listed(balance::available_of(self.pool))
    }

    pub fn pending_list(self) -> Pending
        ensures { result ≡ pending_listed self (pending_structs self) }
    {
        self.payments(flat::pending_block(&self.pool))
    }
}
