// No code: the user's demands over the answers that the code gives. See proofs/.
#![tactic(auto)]
