// What an id has in a store, and the parts of an entry.
#![tactic(auto)]

pub mod entry;
pub mod message;
pub mod resource;

// What holds an id, and where its entry stands in the store.
#[derive(Clone, Copy)]
pub enum Holder {
    Message(usize),
    Term(usize),
    Function,
}
