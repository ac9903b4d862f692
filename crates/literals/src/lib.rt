// Number literals: which texts are one, and the number that one stands for.
#![tactic(auto)]

pub mod literal;

pub use literal::is_number;
