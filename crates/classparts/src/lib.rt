// The parts of a class file's method, as a case has them; there is no code here.
#![tactic(auto)]
