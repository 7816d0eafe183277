// The reader of a feed: rows first (the check of a whole feed, the parts that its rows name), then bodies (own list, block,
// payment, rollback), each field by field.
#![tactic(auto)]

pub mod bodies;
pub mod fields;
pub mod items;
pub mod rows;
pub mod transactions;
