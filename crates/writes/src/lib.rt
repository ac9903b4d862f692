// Writing: text to the text buffer or aside to the workspace's front, errors to the list.
#![tactic(auto)]

pub mod list;
pub mod put;
