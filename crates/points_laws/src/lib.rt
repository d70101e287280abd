// No code: what holds of the single and the list calls (specs/), over the definitions that their contracts cite.
#![tactic(auto)]
