// Demand 3, one theorem about whole histories of calls. It has no functions: see specs/Demand.antt for what is stated and
// proofs/Theorem.antt for its proof.
#![tactic(auto)]
