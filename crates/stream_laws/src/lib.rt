// Theorems on the packet drive: specs/Demands.antt states them, proofs/ proves them, specs/Plates.antt computes 01's plates.
#![tactic(auto)]
