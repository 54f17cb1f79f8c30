// What the Java Virtual Machine Specification says, and nothing else; there is no code here.
#![tactic(auto)]
