// Computed examples: late inputs, names of outputs, wires and figures read back; no code.
#![tactic(auto)]
