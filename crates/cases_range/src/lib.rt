// Computed examples: delays given as a range; no code.
#![tactic(auto)]
