// Theorems about both trees on one log (request 12): definitions and proofs alone.
#![tactic(auto)]
