// Exact decimals with NUMBER's ten options, and their text.
#![tactic(auto)]

pub mod bytes;
pub mod text;
pub mod types;
