// What every crate stands on: the names of the kit that definitions and proofs use.
#![tactic(auto)]
