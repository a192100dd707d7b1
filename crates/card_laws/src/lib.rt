// Theorems on the C interface; specs/Promises.antt states them, proofs/ proves them.
#![tactic(auto)]
