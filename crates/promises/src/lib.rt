// What is promised of the calls that map, and the refusals' conditions over the bytes of the texts; no code.
#![tactic(auto)]
