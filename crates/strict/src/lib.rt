// What the strict readers accept and refuse, declared, and held against JVMS 4.3; there is no code here.
#![tactic(auto)]
