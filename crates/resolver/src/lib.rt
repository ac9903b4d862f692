// The resolver: what a formatting answers. Its contracts' definitions are in specs/, and the steps of its writers in proofs/.
#![tactic(auto)]

mod call;
mod expression;
pub mod format;
mod inline;
mod lent;
mod pattern;
mod reference;
mod scope;
mod term;
