// The paper's refusals.
ghost use Rattle.std.specs.Prelude.{◌≡◌};
ghost use Rattle.wallet.specs.Refusals.{number};

/// Why a call on a wallet is refused.
#[derive(Clone, Copy, Debug, PartialEq, Eq)]
pub enum Refusal {
    NotShaped,
    NumberTaken,
    InputMissing,
    PaysTooMuch,
    AlreadyUnspent,
    Contradicts,
    NoRoom,
    NothingBelow,
    NotSound,
}

impl Refusal {
    /// Its number in the paper's table.
    pub fn number(self) -> u32
        ensures { result ≡ number self }
    {
        match self {
            Refusal::NotShaped => 1,
            Refusal::NumberTaken => 2,
            Refusal::InputMissing => 3,
            Refusal::PaysTooMuch => 4,
            Refusal::AlreadyUnspent => 5,
            Refusal::Contradicts => 6,
            Refusal::NoRoom => 7,
            Refusal::NothingBelow => 8,
            Refusal::NotSound => 9,
        }
    }
}
