// The readers of descriptors held against a text of a class file before it is turned and after; there is no code here.
#![tactic(auto)]
