// No code: what follows for planners: the order of the strings, a plan made easier, and blockers beside the desk's. See specs/ and proofs/.
#![tactic(auto)]
