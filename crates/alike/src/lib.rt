// Whether two wallets are alike in every place, used or not, and whether a list holds nothing in any place. The steps and
// queries need neither; the programs that test them do.
#![tactic(auto)]

ghost use Rattle.std.specs.Prelude.{◌≡◌};
ghost use Rattle.alike.specs.Alike.{alike, no_entries, no_entry, no_payments};

use chain::Block;
use flat::Made;
use rules::Entry;
use wallet::Wallet;

// Whether two wallets are alike in every place, used or not.
pub fn same_wallet(w: Wallet, v: Wallet) -> bool
    ensures { result ≡ alike w v }
{
    w.pool == v.pool
}

// Whether a place of a list holds no entry.
fn no_entry(entry: &Entry) -> bool
    ensures { result ≡ no_entry entry.now }
{
    chain::same_reference(entry.reference, chain::zero_reference())
        && entry.address == 0
        && entry.amount == 0
}

// Whether a list of entries, or of payments, has the count 0 and nothing in any place.
pub fn no_entries(list: Made) -> bool
    ensures { result ≡ no_entries list }
{
    list.items.iter().all(|e| no_entry(e)) && list.count == 0
}

pub fn no_payments(list: Block) -> bool
    ensures { result ≡ no_payments list }
{
    list.transactions.iter().all(|t| chain::no_transaction(*t)) && list.count == 0
}
