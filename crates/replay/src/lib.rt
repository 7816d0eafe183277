// Demand 3, proved of the rules. All of this crate is in specs/.
#![tactic(auto)]
