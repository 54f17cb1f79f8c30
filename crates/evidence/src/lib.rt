// A name is evidence: the report held against the plain machine; there is no code here.
#![tactic(auto)]
