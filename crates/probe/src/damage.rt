// Seventeen ways to damage a wallet, each by one clause of the paper's soundness, and which of them a wallet can take.
use pool::Pool;
use rules::{LARGEST_AMOUNT, MOST_OWN, MOST_PAYMENTS, MOST_REFERENCES, MOST_STATES};

#[derive(Clone, Copy)]
pub(crate) enum Damage {
    // one count too large
    OwnsOver = 1,
    StatesOver,
    EntriesOver,
    PaymentsOver,
    // the last own place not zero, or the first two exchanged
    OwnBehind,
    OwnExchanged,
    // the last entry, or the last payment, not zero
    EntryBehind,
    PaymentBehind,
    // the first entry in no set, in both sets of the present state, or in a state that is not held
    EntryInNone,
    EntryInBoth,
    EntryInOver,
    // the first two entries exchanged
    EntriesExchanged,
    // the first entry over the limit
    EntryDear,
    // the first payment without its mark, without inputs, or with an output over the limit
    PaymentUnmarked,
    PaymentBare,
    PaymentDear,
    // the first entry to an address that is not own
    EntryNotOwn,
}

pub(crate) const DAMAGES: [Damage; 17] = [
    Damage::OwnsOver,
    Damage::StatesOver,
    Damage::EntriesOver,
    Damage::PaymentsOver,
    Damage::OwnBehind,
    Damage::OwnExchanged,
    Damage::EntryBehind,
    Damage::PaymentBehind,
    Damage::EntryInNone,
    Damage::EntryInBoth,
    Damage::EntryInOver,
    Damage::EntriesExchanged,
    Damage::EntryDear,
    Damage::PaymentUnmarked,
    Damage::PaymentBare,
    Damage::PaymentDear,
    Damage::EntryNotOwn,
];

// The smallest number that is no own address: they ascend.
fn not_own(own: &[u32]) -> u32 {
    own.iter().fold(0u32, |address, own| {
        if address == *own {
            address.wrapping_add(1)
        } else {
            address
        }
    })
}

impl Damage {
    // Whether a sound pool can take the damage.
    pub fn applies(self, p: &Pool) -> bool {
        let holds = 1 <= p.used;
        let pays = 1 <= p.paying;
        match self {
            Self::OwnsOver | Self::StatesOver | Self::EntriesOver | Self::PaymentsOver => true,
            Self::OwnBehind => p.owns < MOST_OWN,
            Self::OwnExchanged => 2 <= p.owns,
            Self::EntryBehind => p.used < MOST_REFERENCES,
            Self::PaymentBehind => p.paying < MOST_PAYMENTS,
            Self::EntryInOver => holds && p.below < MOST_STATES - 1,
            Self::EntriesExchanged => 2 <= p.used,
            Self::EntryInNone | Self::EntryInBoth | Self::EntryDear | Self::EntryNotOwn => holds,
            Self::PaymentUnmarked | Self::PaymentBare | Self::PaymentDear => pays,
        }
    }

    // A sound pool with the damage.
    pub fn done_to(self, sound: &Pool) -> Pool {
        let mut p = *sound;
        match self {
            Self::OwnsOver => p.owns = MOST_OWN + 1,
            Self::StatesOver => p.below = MOST_STATES,
            Self::EntriesOver => p.used = MOST_REFERENCES + 1,
            Self::PaymentsOver => p.paying = MOST_PAYMENTS + 1,
            Self::OwnBehind => p.own[MOST_OWN - 1] = 1,
            Self::OwnExchanged => p.own.swap(0, 1),
            Self::EntryBehind => p.entries[MOST_REFERENCES - 1].utxo = 1,
            Self::PaymentBehind => p.payments[MOST_PAYMENTS - 1].pending = 1,
            Self::EntryInNone => {
                p.entries[0].utxo = 0;
                p.entries[0].expected = 0;
            }
            Self::EntryInBoth => {
                p.entries[0].utxo |= 1;
                p.entries[0].expected |= 1;
            }
            // the mark of the first state that is not held
            Self::EntryInOver => p.entries[0].utxo |= 2 << p.below.min(6),
            Self::EntriesExchanged => p.entries.swap(0, 1),
            Self::EntryDear => p.entries[0].entry.amount = LARGEST_AMOUNT + 1,
            Self::PaymentUnmarked => p.payments[0].pending = 0,
            Self::PaymentBare => p.payments[0].transaction.takes = 0,
            Self::PaymentDear => p.payments[0].transaction.outputs[0].amount = LARGEST_AMOUNT + 1,
            Self::EntryNotOwn => {
                let own = &p.own[..p.owns.min(MOST_OWN)];
                p.entries[0].entry.address = not_own(own);
            }
        }
        p
    }
}
