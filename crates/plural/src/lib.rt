// Plural categories of numbers.
#![tactic(auto)]

mod conditions;
pub mod plural;
pub mod types;
