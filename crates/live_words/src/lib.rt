// Request 7: definitions alone.
#![tactic(auto)]
