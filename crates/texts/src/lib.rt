// Error records written.
#![tactic(auto)]

pub mod errors;

pub use errors::{
    Kind, Plain, Referred, put_header, put_no_value, put_overriding, put_plain, put_reference,
};
