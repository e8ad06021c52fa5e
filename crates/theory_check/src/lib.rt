// Laws of the check of an edited netlist: cycles, values, the comparison, and what is printed accepted; no code.
#![tactic(auto)]
