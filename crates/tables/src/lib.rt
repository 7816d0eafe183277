// The minimum valued from tables of mark words, proved of the rules in specs/. Here are the tables' rows. A choice of
// pending payments is a mark word over them, and so is every word in the tables.
#![tactic(auto)]

// Of a pending payment: what it takes and adds, the payments it cannot go with, and the payments it cannot go without.
#[derive(Clone, Copy, Default)]
pub struct Row {
    pub takes: u64,
    pub adds: u64,
    pub clash: u32,
    pub need: u32,
}

// Of an expected entry: its amount; the payments that bring it for certain, and those that bring it unless its owner is
// chosen; the payment of its number, and the payment that makes it.
#[derive(Clone, Copy, Default)]
pub struct Bring {
    pub amount: u64,
    pub hard: u32,
    pub soft: u32,
    pub owner: u32,
    pub maker: u32,
}
