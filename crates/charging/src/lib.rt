// No code: moving that nobody can ever be charged, and plans that never miss since nobody is. See specs/ and proofs/.
#![tactic(auto)]
