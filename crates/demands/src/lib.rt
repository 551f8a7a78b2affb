// The demands, as theorems that name the calls: the crate is its specs/.
#![tactic(auto)]
