// A script's tokens: a word of the productions by its number, or a node's own text, string or number; and the bytes of a list of them.
#![tactic(auto)]

pub mod bytes;
pub mod nodes;
pub mod own;
