// Vectors that the checker computes the definition on: specs only.
#![tactic(auto)]
