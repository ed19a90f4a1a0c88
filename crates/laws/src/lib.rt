// Laws of the definitions, for the crates above. It has no code.
#![tactic(auto)]
