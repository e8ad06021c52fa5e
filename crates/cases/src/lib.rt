// What the computed examples share: texts, kinds of case, and what holds of them; no code.
#![tactic(auto)]
