// Theorems on the floppy tape device: specs/Demands.antt states them, proofs/ proves them, specs/Plates.antt computes the plates of 02, A1.
#![tactic(auto)]
