// Small steps of the walks.
#![tactic(auto)]

pub mod steps;
