// No code: the theorem that a plan that passes never misses a deadline. See proofs/.
#![tactic(auto)]
