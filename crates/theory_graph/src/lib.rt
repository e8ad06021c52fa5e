// Laws of the graph, its topological order, its cuts and their functions; no code.
#![tactic(auto)]
