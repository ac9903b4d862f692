// The rules for the bytes of a Str: identifiers, text, string literals. Each function takes every slice whatsoever.
#![tactic(auto)]

pub mod ascii;
pub mod id;
pub mod string;
pub mod utf8;

pub use ascii::is_hex;
pub use id::is_id;
pub use string::is_string;
pub use utf8::{is_text, is_utf8};
