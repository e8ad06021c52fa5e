// Laws of covers: the choice is the earliest, is a cover, and is first by the order of preference; no code.
#![tactic(auto)]
