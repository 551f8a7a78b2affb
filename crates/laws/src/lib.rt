// Laws that the kit lacks: the crate is its specs/.
#![tactic(auto)]
