// Where the methods of a class file and their tables stand. All of it is in specs/ and proofs/.
#![tactic(auto)]
