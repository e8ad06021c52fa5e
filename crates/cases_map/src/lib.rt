// Computed examples: the marked cases A to K, matches and ties, what a call leaves and returns; no code.
#![tactic(auto)]
