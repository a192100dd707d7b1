// Theorems on the exchange with SIMH tape files: specs/Demands.antt states them, proofs/ proves them, specs/Plates.antt are examples worked out by hand.
#![tactic(auto)]
