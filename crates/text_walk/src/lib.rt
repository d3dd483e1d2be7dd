// A script's text as a list of tokens in the working words.
#![tactic(auto)]

mod list;
mod rows;
mod steps;
pub mod walk;
