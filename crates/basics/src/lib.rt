// Definitions and laws that every crate shares; there is no code here.
#![tactic(auto)]
