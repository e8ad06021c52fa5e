// A netlist of any size, made by moves over four variables of the graph at a time, has the graph's values, and its figures; no code.
#![tactic(auto)]
