// Theorems about an update of the plain tree on bytes: definitions and proofs alone.
#![tactic(auto)]
