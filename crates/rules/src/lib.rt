// The rules' plain things as the code holds them. Each width is the range that the paper's table of sizes gives;
// the rules themselves are in specs/.
#![tactic(auto)]

// A transaction number. Nothing but its own equality and order, same_number and before_number, looks inside.
#[derive(Clone, Copy, Debug, Default, PartialEq, Eq, PartialOrd, Ord)]
pub struct Number {
    pub serial: u64,
}

// Which output of which transaction. References ascend by number, then index.
#[derive(Clone, Copy, Debug, Default, PartialEq, Eq, PartialOrd, Ord)]
pub struct Reference {
    pub number: Number,
    pub index: u16,
}

// What a transaction pays out: its place among the outputs, to whom, and how many lovelace.
#[derive(Clone, Copy, Debug, Default, PartialEq, Eq)]
pub struct Output {
    pub index: u16,
    pub address: u32,
    pub amount: u64,
}

// An output that stands in a set, under its reference.
#[derive(Clone, Copy, Debug, Default, PartialEq, Eq)]
pub struct Entry {
    pub reference: Reference,
    pub address: u32,
    pub amount: u64,
}

// The paper's sizes, once for all code. specs/Sizes.antt has them once for all definitions.
pub const LARGEST_AMOUNT: u64 = 45_000_000_000_000_000;

pub const MOST_OWN: usize = 32;

pub const FEWEST_INPUTS: usize = 1;

pub const MOST_INPUTS: usize = 8;

pub const MOST_OUTPUTS: usize = 8;

pub const MOST_TRANSACTIONS: usize = 16;

pub const MOST_STATES: usize = 8;

pub const MOST_PAYMENTS: usize = 16;

pub const MOST_REFERENCES: usize = 128;
