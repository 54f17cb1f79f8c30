// The bench rows of document 01 that are marked P, and rows of document 02's requests, proved of the written rules; there is no code here.
#![tactic(auto)]
