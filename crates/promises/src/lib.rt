// No code: what the promises of the other crates have in common.
#![tactic(auto)]
