// What the programs share that replay the oracle's vectors: the fields of a case, the bytes that a case lends, the files, and the counts.
#![tactic(auto)]

pub mod compare;
pub mod counts;
pub mod fields;
pub mod files;

pub use compare::{all_are, begins, differs, filled, headed};
pub use fields::{
    blob, byte, flag, part, past, past_blob, past_string, string, tail, u16_at, u32_at, u64_at,
};
pub use files::{case_count, next_case};
