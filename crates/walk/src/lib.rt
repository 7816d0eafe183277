// The walk over the choices of payments, proved to find the least in specs/. Here is what it finds.
#![tactic(auto)]

// The least amount found so far, with the number of payments that are chosen for it. One finding is before another where
// its amount is less, or the same with fewer payments.
#[derive(Clone, Copy, PartialEq, Eq, PartialOrd, Ord)]
pub struct Best {
    pub amount: u64,
    pub count: u32,
}
