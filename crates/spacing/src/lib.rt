// Releases further apart than a plan asks for. Definitions and theorems only: no code.
#![tactic(auto)]
