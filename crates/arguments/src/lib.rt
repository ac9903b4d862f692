// Arguments images: checking them, and finding an argument. Each function takes every slice whatsoever.
#![tactic(auto)]

pub mod find;
pub mod image;
pub mod number;

pub use find::{find_argument, text_of};
pub use image::check_arguments;

// What an arguments image gives for a name. A text is the part of the image from a position up to another; a number is sign, digits and scale.
#[derive(Clone, Copy)]
pub enum Given {
    Text(usize, usize),
    Number(bool, u64, u8),
    Nothing,
}
