// Laws of the topological order and of the cut recursion, each against a statement apart from its definition; no code.
#![tactic(auto)]
