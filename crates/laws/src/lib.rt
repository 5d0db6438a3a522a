// No code: the laws of the definitions, which code and theorems cite. See proofs/.
#![tactic(auto)]
