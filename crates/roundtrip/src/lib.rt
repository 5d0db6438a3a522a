// No code: a lawful plan and its text say each other. See proofs/.
#![tactic(auto)]
