// No code: where the demand rule with free moving breaks, the releases that miss a deadline. See specs/ and proofs/.
#![tactic(auto)]
