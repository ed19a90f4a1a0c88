// Raw tables and the states that they hold: what is read, put in, changed and taken out on both sides. It has no code.
#![tactic(auto)]
