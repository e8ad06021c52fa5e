// Computed examples: two channels; no code.
#![tactic(auto)]
