// The lenient readers held against the grammar of JVMS 4.3; there is no code here.
#![tactic(auto)]
