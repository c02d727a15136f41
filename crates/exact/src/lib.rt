// Exact fractions and the error laws of the IEEE operations: definitions and laws only, no code.
#![tactic(auto)]
