// What the writers of a formatting do one step at a time: put text, list an error, find a value, choose a variant, call NUMBER.
pub mod call;
pub mod error;
pub mod leaf;
pub mod put;
pub mod reference;
pub mod select;
pub mod value;
pub mod variable;
