// Computed examples: an edited netlist checked; no code.
#![tactic(auto)]
