// The bundle: its operations, and their names. Each answers its count of Overriding records, or why it is refused.
#![tactic(auto)]

pub mod bundle;
pub mod places;

pub use bundle::{add_function, add_resource, add_resource_overriding, new};

// Where an addition puts its item: at the used length, behind so many others.
#[derive(Clone, Copy)]
pub struct Place {
    pub used: usize,
    pub count: usize,
}
