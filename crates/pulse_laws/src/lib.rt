// Theorems about the pulse drive; specs/Demands.antt states them, proofs/ proves them.
#![tactic(auto)]
