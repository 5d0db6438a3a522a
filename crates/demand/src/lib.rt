// No code: why a verdict over finitely many pairs is right at every interval, a quick one too, and the search. See specs/ and proofs/.
#![tactic(auto)]
