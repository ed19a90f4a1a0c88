// The theorems of the scheduler, over the definitions of the crate terms: specs/ states them and proofs/ proves them. No code.
#![tactic(auto)]
