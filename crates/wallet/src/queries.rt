// What a query hands back: what was worked out where the wallet is sound, else 9 and nothing.
ghost use Rattle.std.specs.Prelude.{[], cond, ◌≡◌};
ghost use Rattle.flat.specs.Flat.{block_of};

use crate::refusal::Refusal;
use chain::Block;
use rules::MOST_TRANSACTIONS;

// The answer, and what is told with it. Nothing is some kilobytes of zeros, so it is made only where it is told.
pub(crate) fn told<T: Copy, F: FnOnce() -> T>(sound: bool, value: T, nothing: F) -> (u32, T)
    requires { F.IsAlwaysCallable nothing }
    ensures { (n : T) → ((x : T) → F.post nothing x → x ≡ n) → result ≡ cond sound (0, value) (9, n) }
{
    if sound {
        (0, value)
    } else {
        (Refusal::NotSound.number(), nothing())
    }
}

// The empty block, as `block_of` fills it.
pub(crate) fn no_payment() -> Block
    ensures { result ≡ block_of [] }
{
    Block {
        transactions: [chain::zero_transaction(); MOST_TRANSACTIONS],
        count: 0,
    }
}
