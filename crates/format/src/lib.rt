// The feed's format. All of this crate is in specs/.
#![tactic(auto)]
