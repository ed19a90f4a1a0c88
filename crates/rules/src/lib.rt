// The published definitions, in specs/, and the cases that pin them, in proofs/. It has no code.
#![tactic(auto)]
