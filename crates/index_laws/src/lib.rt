// Theorems on the filemark index: specs/Demands.antt states them, proofs/ proves them, specs/Plates.antt are examples worked out by hand.
#![tactic(auto)]
