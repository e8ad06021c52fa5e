// Laws of covers by relations: cuts, walks, orders, matches, inverters, feeding and arrivals, each against the definition that computes it; no code.
#![tactic(auto)]
