// Laws of genlib texts: their form by the grammar, and the written cell text read back; no code.
#![tactic(auto)]
