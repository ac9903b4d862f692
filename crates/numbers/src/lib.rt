// Equality of numbers, and the merge of NUMBER's named options.
#![tactic(auto)]

pub mod equal;
pub mod merge;
