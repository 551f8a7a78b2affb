// The cases of the scope that are proved about the definitions: the crate is its specs/.
#![tactic(auto)]
