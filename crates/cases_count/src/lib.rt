// Computed examples: what a count refuses, by the conditions over the bytes; no code.
#![tactic(auto)]
