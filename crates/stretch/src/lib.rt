// No code: the run between two events, and what its stints are. See proofs/.
#![tactic(auto)]
