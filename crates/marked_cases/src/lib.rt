// No code: the cases that document 01 marks P, as one table with one proof (specs/CaseTheorems.antt).
#![tactic(auto)]
