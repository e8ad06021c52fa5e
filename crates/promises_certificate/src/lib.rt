// What is promised of a netlist that is printed by a certificate, over the bytes of the texts; no code.
#![tactic(auto)]
