// Laws of tallies and of the netlists counted into them. No code.
#![tactic(auto)]
