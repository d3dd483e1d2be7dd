// Reading of the tree file (document 01, "The tree file"): its fields and texts, its nodes in preorder, and all of it.
#![tactic(auto)]

pub mod fields;
pub mod header;
mod idents;
mod load;
pub mod preorder;
pub mod read;
mod table;
pub mod texts;
