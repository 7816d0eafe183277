// What every accepted step keeps, proved of the rules. All of this crate is in specs/.
#![tactic(auto)]
