// Computed examples: netlists counted, and the report; no code.
#![tactic(auto)]
