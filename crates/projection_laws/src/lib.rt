// No code: what holds of forward and inverse for every accepted set (specs/Theorems.antt), over the definitions that their contracts cite.
#![tactic(auto)]
