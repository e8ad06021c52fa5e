// Computed examples: pairs of cells, and a library's lines in another order; no code.
#![tactic(auto)]
