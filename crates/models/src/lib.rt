// The two models of a report beside each other; there is no code here.
#![tactic(auto)]
