// Theorems over the definitions of verdicts, step calls and runs: specs/ says them, proofs/ proves them. There are no
// functions here.
#![tactic(auto)]
