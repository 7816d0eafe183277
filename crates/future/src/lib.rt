// The minimum without most of its futures, proved of the rules. All of this crate is in specs/.
#![tactic(auto)]
