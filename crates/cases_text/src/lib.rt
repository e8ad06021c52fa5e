// Computed examples: the refusals from 2 to 18, the binary form, either line end; no code.
#![tactic(auto)]
