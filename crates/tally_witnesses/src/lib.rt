// No code: a witness for each answer to a call on a tally (specs/WitnessTheorems.antt).
#![tactic(auto)]
