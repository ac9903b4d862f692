// Which entries of an image repeat an id.
#![tactic(auto)]

pub mod marks;
pub mod slots;
