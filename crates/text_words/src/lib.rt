// Words and texts as tokens: which texts are names and variables, and texts written with and without quotes.
#![tactic(auto)]

pub mod names;
pub mod quoted;
pub mod word;
