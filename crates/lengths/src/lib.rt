// Lengths held against JVMS 6.5; there is no code here.
#![tactic(auto)]
