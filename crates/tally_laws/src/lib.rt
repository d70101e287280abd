// No code: what holds of tallies after any calls (specs/Theorems.antt), over the definitions that the calls' contracts cite.
#![tactic(auto)]
