// Holds doubles, rows and lists to those expected: what decides whether a row of `point_vectors` ends in "ok".
#![tactic(auto)]

pub mod doubles;
