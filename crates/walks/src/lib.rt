// What holds of a walk by any table of rows, any way to write slots and any lookup; there is no code here.
#![tactic(auto)]
