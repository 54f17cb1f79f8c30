// What document 01's leaders are, declared, and held against JVMS; there is no code here.
#![tactic(auto)]
