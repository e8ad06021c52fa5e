// Laws of the two texts that are read and of the netlist that is printed; no code.
#![tactic(auto)]
