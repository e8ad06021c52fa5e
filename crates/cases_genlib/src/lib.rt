// Computed examples: genlib read, and the cell text written; no code.
#![tactic(auto)]
