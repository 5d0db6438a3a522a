// No code: lists, ranges and numbers in which rules are said, and their laws. See specs/ and proofs/.
#![tactic(auto)]
