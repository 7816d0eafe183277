// Lists used as sets. All of this crate is in specs/: definitions and their laws.
#![tactic(auto)]
