// How long a message can be: of every case it can be counted in 64 bits; there is no code here.
#![tactic(auto)]
